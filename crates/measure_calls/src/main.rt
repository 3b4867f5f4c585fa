//! Makes one call of a terminal over a nearly full memory, for an instruction counter to watch.
//! Arguments: the call (store, print, verify, release or none), the kind of medium (flash or sectors), and the number of pages.
//! It writes what was answered; a refusal is an error. The instructions of a call are those of its run less those of the run with none.

#![tactic(auto)]

use anyhow::{Context, Error, anyhow};
use indicator::Entered;
use loads::Tenths;
use media::{Cells, Flash, Medium, MediumFault, Sectors};
use rules::{Fault, MediumKind};
use std::env;
use terminal::{Claim, StoreFault, Terminal};
use tours::{example, settings};

/// The call that is made, or none.
#[derive(Clone, Copy)]
enum Call {
    Store,
    Print,
    Verify,
    Release,
    Nothing,
}

/// A word that names no call asks for none.
impl From<&str> for Call {
    fn from(word: &str) -> Call {
        match word {
            "store" => Call::Store,
            "print" => Call::Print,
            "verify" => Call::Verify,
            "release" => Call::Release,
            _ => Call::Nothing,
        }
    }
}

/// The day of the records that are there already.
const EARLIER: u16 = 9000;

/// The error that tells the number of a fault.
fn refused<F: Fault>(fault: F) -> Error {
    anyhow!("refused {}", fault.number())
}

/// Programs records into all rows but the last two.
fn fill<M: Medium>(medium: &mut M) -> Result<(), MediumFault> {
    for row in 0..medium.size() * 16 - 2 {
        let packed = example(row as u32 + 1, EARLIER).pack().unwrap();
        medium.program(row, &packed)?;
    }
    Ok(())
}

/// Stores the weighing that is pending, and voids it where it is refused.
// The terminal hands a refused claim back, so that its caller says what becomes of it: here it is given up.
fn store<M: Medium>(terminal: &mut Terminal<M>, claim: Claim) -> Result<u64, StoreFault> {
    terminal.store(claim).map(u64::from).map_err(|(claim, fault)| {
        terminal.void(claim);
        fault
    })
}

/// Makes the call; for any but a store the weighing that is pending is voided first.
/// A release is for the day after that of the records, so it erases all pages but the newest record's.
fn make<M: Medium>(
    terminal: &mut Terminal<M>,
    claim: Claim,
    call: Call,
    line: &mut [u8; 76],
) -> Result<u64, StoreFault> {
    match call {
        Call::Store => store(terminal, claim),
        Call::Print => {
            terminal.void(claim);
            terminal.print(20, line)?;
            Ok(u64::from(line[9]))
        }
        Call::Verify => {
            terminal.void(claim);
            terminal.verify(line).map(|()| 1)
        }
        Call::Release => {
            terminal.void(claim);
            terminal
                .release(EARLIER + 1, 9500, None)
                .map(|pages| pages as u64)
        }
        Call::Nothing => {
            terminal.void(claim);
            Ok(0)
        }
    }
}

/// Opens a terminal, weighs a lorry, and makes the call: what it answers.
fn run<M: Medium + Drop>(mut medium: M, call: Call) -> anyhow::Result<u64> {
    fill(&mut medium).map_err(refused)?;
    let mut line = example(20, EARLIER).line();
    let mut terminal = Terminal::open(medium, settings());
    terminal.sample(Tenths(0)).map_err(refused)?;
    for _ in 0..8 {
        terminal.sample(Tenths(12430)).map_err(refused)?;
    }
    let entered = Entered {
        day: 9500,
        minute: 615,
        mark: b"KL4420",
        unit_price: 18555,
    };
    let claim = terminal.weigh(entered).map_err(refused)?;
    make(&mut terminal, claim, call, &mut line).map_err(refused)
}

/// The call over so many blank pages of a kind.
fn measure(cells: &mut [u8], kind: MediumKind, call: Call) -> anyhow::Result<u64> {
    // No `ok` and `context`: the proof follows no call that takes a result which holds lent bytes either way.
    let Ok(cells) = Cells::check(cells) else {
        return Err(anyhow!("2 to 64 pages"));
    };
    // A match: each kind of medium is a type of its own.
    match kind {
        MediumKind::Flash => run(Flash::over(cells), call),
        MediumKind::Sectors => run(Sectors::over(cells), call),
    }
}

fn main(rt: HostRuntime) -> anyhow::Result<()> {
    let mut words = env::args(&rt)?.skip(1);
    let call = words.next().context("which call?")?;
    let kind = words.next().context("which kind?")?;
    let pages = words.next().context("how many pages?")?;
    let pages = pages.as_str().parse::<u16>()?;
    // As many as the largest medium has, so that no memory is asked for.
    let mut cells = [0xFF; 32_768];
    let size = usize::from(pages.min(64)) * 512;
    // A word that names no kind of medium stands for sectors.
    let kind = kind.as_str().parse().unwrap_or(MediumKind::Sectors);
    let answer = measure(&mut cells[..size], kind, Call::from(call.as_str()))?;
    println!(rt; "{answer}")?;
    Ok(())
}

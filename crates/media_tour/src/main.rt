//! Makes a flash and a sector medium over bytes with the same content, makes the same calls of both, and compares the bytes at the end.

#![tactic(auto)]

use media::{Medium, MediumFault, check_bytes};
use rules::Fault;
use std::{fmt, io};
use tours::{Refused, Tour, Visit, tour_both};

/// One call of a medium.
#[derive(Clone, Copy)]
enum Step {
    Read(usize),
    Program(usize, u8),
    Erase(usize),
}

impl fmt::Display for Step {
    fn fmt<W: fmt::Write>(&self, f: &mut fmt::Formatter<W>) -> fmt::Result {
        match *self {
            Step::Read(row) => write!(f, "read row {row}"),
            Step::Program(row, byte) => write!(f, "program row {row} with {byte:02X}"),
            Step::Erase(page) => write!(f, "erase page {page}"),
        }
    }
}

/// What is done to both media.
// A table of data, matched once: a type for each form of call would say the same in more places.
const STEPS: [Step; 18] = [
    Step::Read(3),
    Step::Program(0, 0xA1),
    Step::Program(0, 0x00),
    Step::Read(0),
    Step::Program(17, 0x0F),
    Step::Program(31, 0xFF),
    Step::Program(18, 0xFF),
    Step::Program(18, 0x55),
    Step::Program(32, 0x55),
    Step::Read(32),
    Step::Erase(0),
    Step::Read(0),
    Step::Erase(2),
    Step::Erase(1),
    Step::Erase(1),
    Step::Program(31, 0x99),
    Step::Program(0, 0x3C),
    Step::Program(3, 0x77),
];

/// Does one step, and gives what the first byte of that row then is, or of the page's first row.
fn act<M: Medium>(medium: &mut M, step: Step) -> Result<u8, MediumFault> {
    let mut row = [0; 32];
    match step {
        Step::Read(at) => medium.read(at, &mut row)?,
        Step::Program(at, byte) => {
            medium.program(at, &[byte; 32])?;
            medium.read(at, &mut row)?;
        }
        Step::Erase(page) => {
            medium.erase(page)?;
            medium.read(page.saturating_mul(16), &mut row)?;
        }
    }
    Ok(row[0])
}

/// Does every step, and writes the answers, the size and the count of writes.
struct Steps;

impl Tour for Steps {
    fn visit<M: Medium + Drop>(visit: Visit<'_, M>) -> io::Result<()> {
        let Visit { lines, mut medium } = visit;
        for step in STEPS {
            match act(&mut medium, step) {
                Ok(first) => lines.tell(format_args!("{step}: {first:02X}"))?,
                Err(fault) => lines.tell(format_args!("{step}: {}", Refused(fault)))?,
            }
        }
        lines.tell(format_args!("{} pages, {} writes", medium.size(), medium.writes()))
    }
}

/// Bytes of any content, with two rows that are not blank.
fn content() -> [u8; 1024] {
    let mut bytes = [0xFF; 1024];
    bytes[96] = 0x12;
    bytes[1023] = 0x00;
    bytes
}

fn main(rt: HostRuntime) -> io::Result<()> {
    let bytes = content();
    for size in [0, 512, 1000, 1024] {
        match check_bytes(&bytes[..size]) {
            Ok(()) => println!(rt; "{size} bytes pass")?,
            Err(fault) => println!(rt; "{size} bytes are refused {}", fault.number())?,
        }
    }
    tour_both::<Steps>(&rt, bytes)
}

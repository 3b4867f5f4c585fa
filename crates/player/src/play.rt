//! The lines that a terminal plays.

ghost use Rattle.std.specs.Prelude.{◌≡◌, Option};
ghost use Rattle.rules.specs.Terminal.{Indicator as TheIndicator, opening, store as a_store, print as a_print, acts};
ghost use Rattle.rules.specs.Replay.{running, then_printed, weighs_out, plays};
ghost use Rattle.loads.specs.SettingsOf.{settings_of};
ghost use Rattle.indicator.specs.Entries.{entries_of};
ghost use Rattle.trace.specs.Meaning.{reading};
ghost use Rattle.terminal.specs.Worlds.{world, world_with, Acts};
ghost use Rattle.player.specs.Replies.{bytes_of, written, answer_of, then_print};
ghost use Rattle.player.specs.Players.{playing};

use crate::body::Player;
use crate::fault::LineFault;
use crate::reply::Reply;
use indicator::Entered;
use loads::{Intervals, Settings, Tenths};
use media::Medium;
use terminal::{Claim, Terminal};
use trace::{Command, Item, TraceFault};

/// Prints the ticket of a number.
fn print<M: Medium>(terminal: &Terminal<M>, number: u32) -> Result<[u8; 76], LineFault>
    ensures { Acts M.rows M.count (a_print number 76) terminal.now (answer_of result) terminal.now }
{
    let mut ticket = [0; 76];
    terminal.print(number, &mut ticket)?;
    Ok(ticket)
}

/// Stores what was weighed, and voids what cannot be stored.
fn store<M: Medium>(terminal: &mut Terminal<M>, claim: Claim) -> Result<u32, LineFault>
    ensures says { then_printed (acts a_store (world M.rows M.count terminal.old)) ≡ then_print result (world M.rows M.count terminal.new) }
    ensures lender { M.lender terminal.new.medium ≡ M.lender terminal.old.medium }
{
    // The terminal hands a refused claim back, so that its caller says what becomes of it: here it is given up.
    // A match: of what a closure in `map_err` does to the terminal the proof learns nothing.
    match terminal.store(claim) {
        Ok(number) => Ok(number),
        Err((claim, fault)) => {
            terminal.void(claim);
            Err(fault.into())
        }
    }
}

/// Weighs, stores and prints.
fn weigh_out<M: Medium>(
    terminal: &mut Terminal<M>,
    entered: Entered<'_>,
) -> Result<[u8; 76], LineFault>
    ensures says { weighs_out (entries_of entered.entry) (world M.rows M.count terminal.old) ≡ (answer_of result, world M.rows M.count terminal.new) }
    ensures lender { M.lender terminal.new.medium ≡ M.lender terminal.old.medium }
{
    let claim = terminal.weigh(entered)?;
    let number = store(terminal, claim)?;
    print(terminal, number)
}

impl<M: Medium> Player<M> {
    /// Opens a terminal over a medium, to play the lines that follow.
    pub fn open(medium: M, settings: Settings) -> Player<M>
        ensures opens { (on : Option TheIndicator) → playing M.rows M.count result ≡ running (settings_of settings) (acts (opening (settings_of settings)) (world_with M.rows M.count medium on)).1 }
        ensures medium { result.terminal.medium ≡ medium }
    {
        Player {
            terminal: Terminal::open(medium, settings),
            settings,
        }
    }

    /// Does what a line asks for, and gives what it writes unless it is refused.
    fn obey(&mut self, item: Item<'_>) -> Result<Reply, LineFault>
        ensures says { plays (playing M.rows M.count self.old) item.entry.line (reading item.entry.asks) ≡ (written item.entry.line result, playing M.rows M.count self.new) }
        ensures lender { M.lender self.new.terminal.medium ≡ M.lender self.old.terminal.medium }
    {
        let terminal = &mut self.terminal;
        // One match: each command is another call of the terminal, with other values.
        match item.asks? {
            Command::Begin { .. } => return Err(TraceFault { line: item.line }.into()),
            Command::Sample(load) => terminal.sample(Tenths(load))?,
            Command::Zero => terminal.set_zero()?,
            Command::Tare => terminal.take_tare()?,
            Command::Preset(value) => terminal.preset_tare(Intervals(value))?,
            Command::ClearTare => terminal.clear_tare()?,
            Command::Weigh {
                day,
                minute,
                mark,
                unit_price,
                ..
            } => {
                // Field by field: a trace stands on no layer of the terminal, so its command has no `Entered`.
                let entered = Entered {
                    day,
                    minute,
                    mark,
                    unit_price,
                };
                return weigh_out(terminal, entered).map(Reply::Ticket);
            }
            Command::Reopen => terminal.reopen(self.settings),
            Command::Release { day, today } => {
                terminal.release(day, today, None)?;
            }
            Command::Print(number) => return print(terminal, number).map(Reply::Ticket),
        }
        Ok(Reply::Nothing)
    }

    /// Plays a line, and gives what it writes.
    pub fn play(&mut self, item: Item<'_>) -> Reply
        ensures says { plays (playing M.rows M.count self.old) item.entry.line (reading item.entry.asks) ≡ (bytes_of result, playing M.rows M.count self.new) }
        ensures lender { M.lender self.new.terminal.medium ≡ M.lender self.old.terminal.medium }
    {
        let line = item.line;
        match self.obey(item) {
            Ok(reply) => reply,
            Err(fault) => Reply::refused(line, fault),
        }
    }
}

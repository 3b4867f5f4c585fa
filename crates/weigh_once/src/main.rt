//! Weighs one lorry on flash and on sectors, from the opening to the ticket, and writes what it does line by line.

#![tactic(auto)]

use indicator::{Entered, IndicatorFault};
use loads::{Intervals, Tenths};
use media::Medium;
use std::io;
use terminal::{Claim, Terminal};
use tours::{Lines, Refused, Tour, Visit, settings, tour_both};

/// What the cell sends while the lorry stands on the platform, in tenths of an interval.
const LORRY: [i32; 8] = [12431, 12432, 12430, 12429, 12430, 12431, 12433, 12430];

/// A terminal that serves a lorry, and the lines that are written of it.
#[derive(Drop)]
struct Weighbridge<'a, M: Medium + Drop> {
    lines: Lines<'a>,
    terminal: Terminal<M>,
}

impl<M: Medium + Drop> Weighbridge<'_, M> {
    /// Writes what came of a key with a value.
    fn tell_key(
        &self,
        key: &str,
        value: i32,
        answer: Result<(), IndicatorFault>,
    ) -> io::Result<()> {
        let what = format_args!("{key} {value}");
        match answer {
            Ok(()) => self.lines.tell(what),
            Err(fault) => self.lines.tell_refused(what, fault),
        }
    }

    /// Takes a load of the cell.
    fn sample(&mut self, load: i32) -> io::Result<()> {
        let answer = self.terminal.sample(Tenths(load));
        self.tell_key("sample", load, answer)
    }

    /// The platform is empty, then the lorry stands on it, and its tare is typed in.
    fn drive_on(&mut self) -> io::Result<()> {
        self.lines.tell("the platform is empty")?;
        self.sample(0)?;
        self.lines.tell("a lorry stands on it")?;
        for load in LORRY {
            self.sample(load)?;
        }
        let answer = self.terminal.preset_tare(Intervals(426));
        self.tell_key("preset tare", 426, answer)
    }

    /// Weighs and stores.
    fn weigh(&mut self, minute: u32) -> io::Result<()> {
        let entered = Entered {
            day: 9500,
            minute,
            mark: b"KL4420",
            unit_price: 18555,
        };
        match self.terminal.weigh(entered) {
            Ok(claim) => self.store(claim),
            Err(fault) => self.lines.tell_refused("not weighed", fault),
        }
    }

    /// Stores what was weighed, and voids what is not stored.
    fn store(&mut self, claim: Claim) -> io::Result<()> {
        let lines = self.lines;
        // A match: each arm writes another line, and a refused claim must be given up first.
        match self.terminal.store(claim) {
            Ok(number) => lines.tell(format_args!("weighed and stored under number {number}")),
            Err((claim, fault)) => {
                self.terminal.void(claim);
                lines.tell_refused("not weighed", fault)
            }
        }
    }

    /// Holds a line against the memory.
    fn verify(&self, line: &[u8]) -> io::Result<()> {
        match self.terminal.verify(line) {
            Ok(()) => self.lines.tell("the line is confirmed"),
            Err(fault) => self
                .lines
                .tell(format_args!("the line is {}", Refused(fault))),
        }
    }

    /// Prints the ticket of a number, and holds it against the memory, as it is and with another digit.
    fn show_ticket(&self, number: u32) -> io::Result<()> {
        let mut line = [b' '; 76];
        match self.terminal.print(number, &mut line) {
            Ok(()) => self.lines.tell_ticket(&line)?,
            Err(fault) => self
                .lines
                .tell_refused(format_args!("number {number}"), fault)?,
        }
        self.verify(&line)?;
        line[40] = b'9';
        self.verify(&line)
    }

    /// Releases old pages.
    fn release(&mut self, day: u16, today: u16) -> io::Result<()> {
        match self.terminal.release(day, today, None) {
            Ok(pages) => self
                .lines
                .tell(format_args!("released, pages erased: {pages}")),
            Err(fault) => self.lines.tell_refused("not released", fault),
        }
    }

    /// One lorry, from the empty platform to the release of old pages.
    fn serve(&mut self) -> io::Result<()> {
        self.drive_on()?;
        self.weigh(615)?;
        self.show_ticket(1)?;
        self.weigh(616)?;
        self.release(9500, 9589)?;
        self.release(9500, 9590)
    }
}

/// Opens a terminal over a medium, serves one lorry, and writes how often the medium was written.
struct OneLorry;

impl Tour for OneLorry {
    fn visit<M: Medium + Drop>(visit: Visit<'_, M>) -> io::Result<()> {
        let Visit { lines, medium } = visit;
        let mut bridge = Weighbridge {
            lines,
            terminal: Terminal::open(medium, settings()),
        };
        lines.tell("opened")?;
        bridge.serve()?;
        lines.tell(format_args!("writes: {}", bridge.terminal.close().writes()))
    }
}

fn main(rt: HostRuntime) -> io::Result<()> {
    tour_both::<OneLorry>(&rt, [0xFF; 1024])
}

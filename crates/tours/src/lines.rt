use rules::{Fault, MediumKind};
use std::fmt::Display;
use std::io;
use std::io::Write;

/// Where a tour writes; each line begins with the kind of its medium.
#[derive(Clone, Copy)]
pub struct Lines<'a> {
    pub(crate) rt: &'a HostRuntime,
    pub(crate) kind: MediumKind,
}

impl Lines<'_> {
    /// Writes a line.
    pub fn tell<D: Display + Drop>(self, what: D) -> io::Result<()> {
        let kind = self.kind;
        println!(self.rt; "{kind}: {what}")
    }

    /// Writes what was refused, and the number of the fault.
    pub fn tell_refused<D: Display + Drop, F: Fault>(self, what: D, fault: F) -> io::Result<()> {
        self.tell(format_args!("{what}: refused {}", fault.number()))
    }

    /// Writes the line of a ticket as it is, with no kind before it.
    pub fn tell_ticket(self, line: &[u8; 76]) -> io::Result<()> {
        self.rt.stdout().write_all(line)
    }
}

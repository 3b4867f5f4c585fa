use rules::Fault;

/// A line of a trace that is refused, by its number, counted from 1.
#[derive(Clone, Copy, Debug, PartialEq, Eq)]
pub struct TraceFault {
    pub line: usize,
}

impl Fault for TraceFault {
    ghost number_of = { λ _. 32 };

    ghost place_of = { λ fault. fault.line };

    fn number(self) -> u8 {
        32
    }

    /// The number of the line.
    fn place(self) -> usize {
        self.line
    }
}

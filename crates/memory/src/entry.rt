ghost use Rattle.std.specs.Prelude.{◌≡◌};
ghost use Rattle.rules.specs.Memory.{page_of};

use records::Record;

/// A record that is found, with its row.
#[derive(Clone, Copy, PartialEq, Eq)]
pub struct Entry {
    pub row: usize,
    pub weighing: Record,
}

impl Entry {
    /// The number of its page.
    pub(crate) fn page(self) -> usize
        ensures { result ≡ page_of self.row }
    {
        self.row / 16
    }
}

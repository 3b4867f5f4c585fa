//! A memory with its newest record, and the round that follows from it.

ghost use Rattle.std.specs.Prelude.{◌≡◌, length, option_map};
ghost use Rattle.rules.specs.Memory.{newest as newest_of, pages};
ghost use Rattle.rules.proofs.Memories.{first_page as round_page, start};
ghost use Rattle.memory.specs.Entries.{entry_of};
ghost use Rattle.memory.specs.Rounds.{IsAround};

use crate::entry::Entry;
use crate::reading::newest;
use media::Medium;
use std::iter::Chain;
use std::ops::Range;

/// A memory, and the newest record in it.
#[derive(Drop)]
pub(crate) struct Seen<'m, M: Medium> {
    pub(crate) medium: &'m M,
    pub(crate) newest: Option<Entry>,
    ghost known: { option_map entry_of newest ≡ newest_of (M.rows medium.now) },
}

impl<'m, M: Medium> Seen<'m, M> {
    /// Looks for the newest record.
    pub(crate) fn of(medium: &'m M) -> Seen<'m, M>
        ensures { result.medium.now ≡ medium.now }
    {
        Seen {
            medium,
            newest: newest(medium),
        }
    }

    /// The page that the round starts with: the one after the newest record's, or page 0.
    pub(crate) fn first_page(&self) -> usize
        ensures { result ≡ round_page (newest_of (M.rows self.now.medium.now)) }
    {
        self.newest.map_or(0, |entry| entry.page() + 1)
    }

    /// The pages as they come along the round.
    pub(crate) fn pages(&self) -> Chain<Range<usize>, Range<usize>>
        ensures { IsAround (round_page (newest_of (M.rows self.now.medium.now))) (pages (M.rows self.now.medium.now)) result }
    {
        around(self.first_page(), self.medium.size())
    }

    /// The rows as they come along the round.
    pub(crate) fn rows(&self) -> Chain<Range<usize>, Range<usize>>
        ensures { IsAround (start (M.rows self.now.medium.now)) (length (M.rows self.now.medium.now)) result }
    {
        around(self.first_page() * 16, self.medium.size() * 16)
    }
}

/// So many rows or pages as they come along a round: from the first on, and then those before it.
fn around(first: usize, count: usize) -> Chain<Range<usize>, Range<usize>>
    ensures { IsAround first count result }
{
    (first..count).chain(0..first)
}

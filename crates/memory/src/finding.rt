//! The next number, and a record by its number.

ghost use Rattle.std.specs.Prelude.{◌≡◌, option_map};
ghost use Rattle.rules.specs.Memory.{next_number};
ghost use Rattle.records.specs.RecordsOf.{record_of};
ghost use Rattle.memory.specs.Entries.{entry_of};
ghost use Rattle.memory.specs.Rounds.{if_numbered};
ghost use Rattle.memory.specs.Faults.{outcome, finds, looks_up, found as record_found};

use crate::entry::Entry;
use crate::fault::MemoryFault;
use crate::reading::entry_at;
use crate::seen::Seen;
use media::Medium;
use records::Record;

/// The record, if it has that number.
fn if_numbered(entry: Option<Entry>, number: u64) -> Option<Record>
    ensures { option_map record_of result ≡ if_numbered number (option_map entry_of entry) }
{
    let found = entry?.weighing;
    (u64::from(found.number) == number).then_some(found)
}

impl<M: Medium> Seen<'_, M> {
    /// The number of the next record: one more than the newest number, or 1.
    pub(crate) fn next_number(&self) -> u64
        ensures { result ≡ next_number (M.rows self.now.medium.now) }
    {
        self.newest
            .map_or(1, |entry| u64::from(entry.weighing.number) + 1)
    }

    /// The intact record with that number, along the round from its first row.
    fn find(&self, number: u64) -> Result<Record, MemoryFault>
        ensures { finds (M.rows self.now.medium.now) number ≡ (outcome result, record_found result) }
    {
        self.rows()
            .find_map(|row| if_numbered(entry_at(self.medium, row), number))
            .ok_or(MemoryFault::Unknown)
    }
}

/// The number of the next record: one more than the newest number, or 1.
pub fn next_number<M: Medium>(m: &M) -> u64
    ensures { result ≡ next_number (M.rows m.now) }
{
    Seen::of(m).next_number()
}

/// The intact record with that number.
pub fn find<M: Medium>(m: &M, number: u64) -> Result<Record, MemoryFault>
    ensures { finds (M.rows m.now) number ≡ (outcome result, record_found result) }
{
    Seen::of(m).find(number)
}

/// The intact record with that number, in a memory in order.
pub fn look_up<M: Medium>(m: &M, number: u64) -> Result<Record, MemoryFault>
    ensures { looks_up (M.rows m.now) number ≡ (outcome result, record_found result) }
{
    let seen = Seen::of(m);
    seen.check()?;
    seen.find(number)
}

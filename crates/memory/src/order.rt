//! The order of a memory: along the round from its first row the records rise, in number and in stamp.

ghost use Rattle.std.specs.Prelude.{◌≡◌, option_map};
ghost use Rattle.records.specs.RecordsOf.{record_of};
ghost use Rattle.memory.specs.Rounds.{may_follow};
ghost use Rattle.memory.specs.Faults.{outcome, orders, checks, newest_told};

use crate::entry::Entry;
use crate::fault::MemoryFault;
use crate::reading::entry_at;
use crate::seen::Seen;
use media::Medium;
use records::Record;

/// Whether a record may come after the last one, if there is one: its number is larger, and its stamp not earlier.
fn may_follow(last: Option<Record>, next: Record) -> bool
    ensures { result ≡ may_follow (option_map record_of last) (record_of next) }
{
    last.is_none_or(|last| last.number < next.number && !next.is_earlier(last))
}

impl<M: Medium> Seen<'_, M> {
    /// Checks that the records rise along the round.
    pub(crate) fn check(&self) -> Result<(), MemoryFault>
        ensures { outcome result ≡ orders (M.rows self.now.medium.now) }
    {
        let mut last = None;
        for row in self.rows() {
            if let Some(entry) = entry_at(self.medium, row) {
                if !may_follow(last, entry.weighing) {
                    return Err(MemoryFault::Disorder(entry.row));
                }
                last = Some(entry.weighing);
            }
        }
        Ok(())
    }
}

/// Checks that the records rise along the round; answers the newest.
pub fn newest_in_order<M: Medium>(m: &M) -> Result<Option<Entry>, MemoryFault>
    ensures { (outcome result, newest_told result) ≡ checks (M.rows m.now) }
{
    let seen = Seen::of(m);
    seen.check()?;
    Ok(seen.newest)
}

/// Checks that the records rise along the round, in number and in stamp.
pub fn check_order<M: Medium>(m: &M) -> Result<(), MemoryFault>
    ensures { outcome result ≡ orders (M.rows m.now) }
{
    newest_in_order(m)?;
    Ok(())
}

//! The store: a weighing gets the number after the newest record's, and goes into the next row.

ghost use Rattle.std.specs.Prelude.{◌≡◌, true, Some, IfOk};
ghost use Rattle.rules.specs.Records.{lawful};
ghost use Rattle.rules.specs.Memory.{newest as newest_of, next_row};
ghost use Rattle.records.specs.RecordsOf.{record_of};
ghost use Rattle.records.specs.WeighingsOf.{weighing_of};
ghost use Rattle.memory.specs.Faults.{outcome, found as record_found, appends, row_told};
ghost use Rattle.memory.specs.Stores.{is_earlier, follows, writes_record, stores, store_told};

use crate::fault::MemoryFault;
use crate::next::next_row;
use crate::seen::Seen;
use media::Medium;
use records::{Record, Weighing};

impl<M: Medium> Seen<'_, M> {
    /// Whether the stamp of a weighing is earlier than the newest record's.
    fn is_later_than(&self, weighing: Weighing) -> bool
        ensures { result ≡ is_earlier (newest_of (M.rows self.now.medium.now)) (weighing_of weighing) }
    {
        self.newest
            .is_some_and(|entry| weighing.numbered(1).is_earlier(entry.weighing))
    }

    /// The record of a weighing under the number after the newest record's.
    #[tactic(auto, using(crate::proofs::Storings::follows_next, rules::proofs::MemoryLaws::next_number_from_one))]
    fn record(&self, weighing: Weighing) -> Result<Record, MemoryFault>
        ensures says { follows (newest_of (M.rows self.now.medium.now)) (weighing_of weighing) ≡ (outcome result, record_found result) }
        ensures lawful { IfOk result (λ q. lawful (record_of q) ≡ true) }
    {
        if self.is_later_than(weighing) {
            return Err(MemoryFault::Earlier);
        }
        let number = u32::try_from(self.next_number()).map_err(|_| MemoryFault::NoNumber)?;
        Ok(weighing.numbered(number))
    }
}

// Each function that writes owes its `lender` clause: it is a fact about that call, before and after.

/// Programs a record into the next row, which is one write.
fn write<M: Medium>(m: &mut M, row: usize, weighed: Record) -> Result<(), MemoryFault>
    requires { (next_row (M.rows m.old) ≡ Some row) × (lawful (record_of weighed) ≡ true) }
    // rows and count are the two halves of what a medium means, so both are named
    ensures says { writes_record (M.rows m.old) (M.count m.old) row (record_of weighed) ≡ (outcome result, M.rows m.new, M.count m.new) }
    ensures lender { M.lender m.new ≡ M.lender m.old }
{
    // a lawful record has a row
    let packed = weighed.pack().unwrap();
    m.program(row, &packed)?;
    Ok(())
}

/// Stores a weighing under the next number, in the next row, which is one write; answers the number.
pub fn store<M: Medium>(m: &mut M, weighing: Weighing) -> Result<u32, MemoryFault>
    ensures says { stores (M.rows m.old) (M.count m.old) (weighing_of weighing) ≡ (store_told result, (M.rows m.new, M.count m.new)) }
    ensures lender { M.lender m.new ≡ M.lender m.old }
{
    let seen = Seen::of(&*m);
    seen.check()?;
    let weighed = seen.record(weighing)?;
    let row = seen.next_row().ok_or(MemoryFault::Full)?;
    write(m, row, weighed)?;
    Ok(weighed.number)
}

/// Programs a packed record into the next row, which is one write; answers that row.
pub fn append<M: Medium>(m: &mut M, packed: &[u8; 32]) -> Result<usize, MemoryFault>
    ensures says { appends (M.rows m.old) (M.count m.old) packed.now ≡ (outcome result, row_told result, M.rows m.new, M.count m.new) }
    ensures lender { M.lender m.new ≡ M.lender m.old }
{
    let row = next_row(&*m).ok_or(MemoryFault::Full)?;
    m.program(row, packed)?;
    Ok(row)
}

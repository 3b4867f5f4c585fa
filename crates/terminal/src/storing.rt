//! The calls that use the memory: store, print, verify and release.

ghost use Rattle.std.specs.Prelude.{◌≡◌, length, take, option_map};
ghost use Rattle.rules.specs.Terminal.{store as a_store, print as a_print, verify as a_verify, release as a_release, buffer_after, acts};
ghost use Rattle.records.specs.WeighingsOf.{weighing_of};
ghost use Rattle.memory.specs.Entries.{entry_of};
ghost use Rattle.indicator.specs.StatesOf.{pending_in};
ghost use Rattle.indicator.specs.Bounds.{InBounds};
ghost use Rattle.terminal.specs.Worlds.{world, Acts};
ghost use Rattle.terminal.specs.Answers.{store_answer, print_answer, verify_answer, release_answer, asked, is_before};

use crate::body::Terminal;
use crate::claim::Claim;
use crate::fault::StoreFault;
use crate::lines::{difference, fill};
use media::Medium;
use memory::{Entry, look_up, newest_in_order};
use records::{Weighing, line_number};

/// Whether a day is before that of the newest record.
fn is_before(day: u16, latest: Option<Entry>) -> bool
    ensures { result ≡ is_before day (option_map entry_of latest) }
{
    latest.is_some_and(|entry| day < entry.weighing.day)
}

// Whoever writes to a medium owes the clause `lender`: it is a fact about the call, not about a value.
impl<M: Medium> Terminal<M> {
    /// The weighing that is pending, if one is. The indicator of every terminal stays within its bounds (`bounds`), whatever was done with it.
    pub fn pending(&self) -> Option<Weighing>
        ensures says { option_map weighing_of result ≡ pending_in self.now.indicator.state }
        ensures bounds { InBounds self.now.indicator }
    {
        self.indicator.pending()
    }

    /// Stores the weighing that is pending, under the number that is answered. A refusal hands the claim back.
    pub fn store(&mut self, claim: Claim) -> Result<u32, (Claim, StoreFault)>
        ensures says { Acts M.rows M.count a_store self.old (store_answer result) self.new }
        ensures lender { M.lender self.new.medium ≡ M.lender self.old.medium }
    {
        // No `ok_or` and no `?` in here: a claim is linear, and each of them would take it where it is still needed.
        let Some(weighing) = self.indicator.pending() else {
            return Err((claim, StoreFault::NothingPending));
        };
        match memory::store(&mut self.medium, weighing) {
            Ok(number) => {
                let Claim(_) = claim;
                self.indicator.stored();
                Ok(number)
            }
            Err(fault) => Err((claim, fault.into())),
        }
    }

    /// Writes the ticket line of a record into the first 76 bytes of a buffer.
    pub fn print(&self, number: u32, out: &mut [u8]) -> Result<(), StoreFault>
        ensures says { Acts M.rows M.count (a_print number (length out.old)) self.now (print_answer (take 76 out.new) result) self.now }
        ensures buffer { out.new ≡ buffer_after (acts (a_print number (length out.old)) (world M.rows M.count self.now)).0 out.old }
    {
        if out.len() < 76 {
            return Err(StoreFault::ShortBuffer);
        }
        let found = look_up(&self.medium, u64::from(number))?;
        fill(out, &found.line());
        Ok(())
    }

    /// Confirms a ticket line: it is the line of the record whose number it begins with.
    pub fn verify(&self, text: &[u8]) -> Result<(), StoreFault>
        ensures { Acts M.rows M.count (a_verify text.now) self.now (verify_answer result) self.now }
    {
        let number = line_number(text).ok_or(StoreFault::NoLine)?;
        let found = look_up(&self.medium, number)?;
        // no `ok_or`: here a place is the refusal, and none the acceptance
        match difference(text, &found.line()) {
            Some(place) => Err(StoreFault::Differs(place)),
            None => Ok(()),
        }
    }

    /// Erases the old pages of the memory, up to the first with a record of the day or later; answers how many.
    /// The day must lie a keeping time before today: 90 days if none is given.
    pub fn release(&mut self, day: u16, today: u16, keep: Option<u16>) -> Result<usize, StoreFault>
        ensures says { Acts M.rows M.count (a_release (asked day today keep)) self.old (release_answer result) self.new }
        ensures lender { M.lender self.new.medium ≡ M.lender self.old.medium }
    {
        let days = keep.unwrap_or(90);
        if !(90..=400).contains(&days) {
            return Err(StoreFault::KeepingTime);
        }
        let latest = newest_in_order(&self.medium)?;
        if is_before(today, latest) {
            return Err(StoreFault::TodayTooEarly);
        }
        if u32::from(day) + u32::from(days) > u32::from(today) {
            return Err(StoreFault::TooYoung);
        }
        Ok(memory::release(&mut self.medium, day))
    }
}

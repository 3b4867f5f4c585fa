ghost use Rattle.std.specs.Prelude.{◌≡◌, ◌≤◌, IfOk};
ghost use Rattle.rules.specs.Records.{typed_mark};
ghost use Rattle.records.specs.Meaning.{codes_of};
ghost use Rattle.indicator.specs.Answers.{answer, first_of, entry_refusals};
ghost use Rattle.indicator.specs.Entries.{entries_of};

use crate::fault::IndicatorFault;
use records::Mark;

/// What is entered with a weighing: the day, the minute of the day, the mark as it was typed, and the unit price.
#[derive(Clone, Copy)]
pub struct Entered<'a> {
    pub day: u16,
    pub minute: u32,
    pub mark: &'a [u8],
    pub unit_price: u32,
}

impl Entered<'_> {
    /// The mark that was typed; refuses a minute, a mark or a unit price that no record has.
    pub(crate) fn check(self) -> Result<Mark, IndicatorFault>
        ensures says { answer result ≡ first_of (entry_refusals (entries_of self.entry)) }
        ensures mark { IfOk result (λ m. codes_of m ≡ typed_mark self.entry.mark.now) }
        ensures minute { IfOk result (λ _. self.entry.minute ≤ 1439) }
    {
        if self.minute > 1439 {
            return Err(IndicatorFault::Minute);
        }
        let mark = Mark::typed(self.mark).map_err(|_| IndicatorFault::Mark)?;
        if self.unit_price > 1_000_000 {
            return Err(IndicatorFault::UnitPrice);
        }
        Ok(mark)
    }
}

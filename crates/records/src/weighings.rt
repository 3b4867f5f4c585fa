ghost use Rattle.std.specs.Prelude.{◌≡◌, ◌≤◌, true, if◌then◌else◌, None, Some};
ghost use Rattle.rules.specs.Records.{lawful, numbered as with_number};
ghost use Rattle.records.specs.RecordsOf.{record_of};
ghost use Rattle.records.specs.WeighingsOf.{weighing_of, weighing_says};

use crate::record::Record;
use crate::row::Unlawful;
use crate::weighing::Weighing;

impl TryFrom<Record> for Weighing {
    type Error = Unlawful;

    ghost try_from_gives = { λ entries made. weighing_says made ≡ (if lawful (with_number 1 (record_of entries)) then Some (with_number 0 (record_of entries)) else None) };

    /// The weighing in a record, whatever its number; refused unless the record is lawful but for its number.
    fn try_from(entries: Record) -> Result<Weighing, Unlawful> {
        let first = Record {
            number: 1,
            ..entries
        };
        if !first.is_lawful() {
            return Err(Unlawful);
        }
        Ok(Weighing {
            // by the rules a weighing has number 0 until it is stored
            entries: Record {
                number: 0,
                ..entries
            },
        })
    }
}

impl Weighing {
    /// Its record under a number.
    pub fn numbered(self, number: u32) -> Record
        ensures value { record_of result ≡ with_number number (weighing_of self) }
        ensures lawful { 1 ≤ number → lawful (record_of result) ≡ true }
    {
        Record {
            number,
            ..self.entries
        }
    }
}

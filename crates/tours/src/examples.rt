ghost use Rattle.std.specs.Prelude.{◌≡◌, ◌≤◌, codes, true};
ghost use Rattle.rules.specs.Records.{typed_mark, lawful};
ghost use Rattle.rules.specs.Cases.{a_record, some_settings};
ghost use Rattle.loads.specs.SettingsOf.{settings_of};
ghost use Rattle.records.specs.Meaning.{codes_of};
ghost use Rattle.records.specs.RecordsOf.{record_of};

use loads::{Interval, Settings};
use records::{Mark, Record, Tare, Weight};

/// The example's mark.
#[tactic(auto, using(crate::proofs::TheExample::mark_lawful))]
fn mark() -> Mark
    ensures { codes_of result ≡ typed_mark (codes "KL4420") }
{
    Mark::typed(b"KL4420").unwrap()
}

/// The record of the rules' worked case, with this number and of this day.
#[tactic(auto, using(crate::proofs::TheExample::example_lawful))]
pub fn example(number: u32, day: u16) -> Record
    ensures fields { record_of result ≡ record a_record { number = number; day = day } }
    ensures lawful { 1 ≤ number → lawful (record_of result) ≡ true }
{
    Record {
        number,
        day,
        minute: 615,
        interval: Interval::Twenty,
        gross: Weight(1243),
        tare: Tare::Preset(Weight(426)),
        unit_price: 18555,
        mark: mark(),
    }
}

/// The settings of the rules' worked case.
pub fn settings() -> Settings
    ensures { settings_of result ≡ some_settings }
{
    Settings::check(3, 20, 3000).unwrap()
}

ghost use Rattle.std.specs.Prelude.{◌≡◌, true};
ghost use Rattle.rules.specs.Records.{lawful, numbered};
ghost use Rattle.records.specs.RecordsOf.{record_of};

use crate::record::Record;

/// A weighing that may be stored: whatever number it is given, from 1 on, its record is lawful.
#[derive(Clone, Copy, PartialEq, Eq)]
pub struct Weighing {
    /// The record, with no number yet.
    pub(crate) entries: Record,
    ghost sound: { lawful (numbered 1 (record_of entries)) ≡ true },
}

//! The fields of a row as plain numbers, in words and out of words.

ghost use Rattle.std.specs.Prelude.{◌≡◌, ◌*◌, ◌/◌, ◌^◌, ◌<◌, ◌&&◌, ◌==◌, true, if◌then◌else◌, None, Some, option_map};
ghost use Rattle.rules.specs.Lists.{number_of};
ghost use Rattle.rules.specs.Records.{lawful};
ghost use Rattle.rules.specs.Rows.{fields as fields_of, side_by_side};
ghost use Rattle.records.specs.FieldsOf.{field_list, FitsWidths, is_record, record_in, TareSays};
ghost use Rattle.records.specs.RecordsOf.{bounded, record_of};

use crate::bits::{Field, Reader, Writer};
use crate::mark::Mark;
use crate::record::{Record, Tare, Weight, are_bounded};
use loads::Interval;

/// What the field of the kind holds in the row of a record.
const KIND: u8 = 0xA1;

/// What the spare bits hold: ones.
const SPARE: u64 = 0x1F_FFFF_FFFF;

/// The fields of a row but for the check.
// Numbers, not kinds: a row may hold a kind, an interval or a kind of tare that there is none of.
#[derive(Clone, Copy)]
pub(crate) struct Fields {
    kind: u8,
    number: u32,
    day: u16,
    minute: u16,
    interval: u8,
    gross: u16,
    tare_kind: u8,
    tare: u16,
    net: u16,
    unit_price: u32,
    price: u32,
    mark: u64,
    spare: u64,
}

// Field by field, not in a loop over the table of widths: the loop took twice the instructions.
// No `From`: `of` asks for a lawful record, `words` for fields that fit, and `read` tells that they do, which `From` cannot say.
impl Fields {
    /// The fields in the words of a row.
    pub(crate) fn read(words: [u64; 4]) -> Fields
        ensures body { side_by_side 0 (field_list result) ≡ number_of (2 ^ 64) 0 words / 256 }
        ensures fit { FitsWidths (field_list result) }
    {
        let mut reader = Reader::new(words);
        Fields {
            kind: reader.take(Field::Kind) as u8,
            number: reader.take(Field::Number) as u32,
            day: reader.take(Field::Day) as u16,
            minute: reader.take(Field::Minute) as u16,
            interval: reader.take(Field::Interval) as u8,
            gross: reader.take(Field::Gross) as u16,
            tare_kind: reader.take(Field::TareKind) as u8,
            tare: reader.take(Field::Tare) as u16,
            net: reader.take(Field::Net) as u16,
            unit_price: reader.take(Field::UnitPrice) as u32,
            price: reader.take(Field::Price) as u32,
            mark: reader.take(Field::Mark),
            spare: reader.take(Field::Spare),
        }
    }

    /// The words of these fields, with a check of 0.
    pub(crate) fn words(self) -> [u64; 4]
        requires { FitsWidths (field_list self) }
        ensures { number_of (2 ^ 64) 0 result ≡ side_by_side 0 (field_list self) * 256 }
    {
        let mut writer = Writer::new();
        writer.put(Field::Kind, u64::from(self.kind));
        writer.put(Field::Number, u64::from(self.number));
        writer.put(Field::Day, u64::from(self.day));
        writer.put(Field::Minute, u64::from(self.minute));
        writer.put(Field::Interval, u64::from(self.interval));
        writer.put(Field::Gross, u64::from(self.gross));
        writer.put(Field::TareKind, u64::from(self.tare_kind));
        writer.put(Field::Tare, u64::from(self.tare));
        writer.put(Field::Net, u64::from(self.net));
        writer.put(Field::UnitPrice, u64::from(self.unit_price));
        writer.put(Field::Price, u64::from(self.price));
        writer.put(Field::Mark, self.mark);
        writer.put(Field::Spare, self.spare);
        writer.put(Field::Check, 0);
        writer.finish()
    }

    /// The fields of a lawful record.
    pub(crate) fn of(weighing: Record) -> Fields
        requires { lawful (record_of weighing) ≡ true }
        ensures { field_list result ≡ fields_of (record_of weighing) }
    {
        Fields {
            kind: KIND,
            number: weighing.number,
            day: weighing.day,
            minute: weighing.minute,
            interval: weighing.interval.code(),
            gross: weighing.gross.0,
            tare_kind: weighing.tare.kind(),
            tare: weighing.tare.weight().0,
            net: weighing.net().0,
            unit_price: weighing.unit_price,
            price: weighing.price() as u32,
            mark: weighing.mark.value(),
            spare: SPARE,
        }
    }

    /// The tare in the fields, if its kind and its weight go together.
    fn tare(self) -> Option<Tare>
        ensures { TareSays self.tare_kind self.tare result }
    {
        match (self.tare_kind, self.tare > 0) {
            (0, false) => Some(Tare::None),
            (1, true) => Some(Tare::Weighed(Weight(self.tare))),
            (2, true) => Some(Tare::Preset(Weight(self.tare))),
            _ => None,
        }
    }

    /// Whether the numbers in the fields lie within their bounds.
    fn are_bounded(self) -> bool
        ensures { result ≡ bounded self.number self.minute self.gross self.tare self.net self.unit_price }
    {
        are_bounded(
            self.number,
            self.minute,
            Weight(self.gross),
            Weight(self.tare),
            Weight(self.net),
            self.unit_price,
        )
    }

    /// Whether the net weight and the price of the fields are those of a record.
    fn agrees(self, found: Record) -> bool
        ensures { result ≡ (self.net == (record_of found).net && self.price == (record_of found).price) }
    {
        self.net == found.net().0 && u64::from(self.price) == found.price()
    }

    /// The record in the fields, if it is lawful.
    pub(crate) fn record(self) -> Option<Record>
        ensures { option_map record_of result ≡ (if is_record self then Some (record_in self) else None) }
    {
        // Their bounds first: a look at them is short, and the mark and the price of a row that is damaged are not worked out.
        if self.kind != KIND || self.spare != SPARE || !self.are_bounded() {
            return None;
        }
        let found = Record {
            number: self.number,
            day: self.day,
            minute: self.minute,
            interval: Interval::from_code(self.interval)?,
            gross: Weight(self.gross),
            tare: self.tare()?,
            unit_price: self.unit_price,
            mark: Mark::from_value(self.mark).ok()?,
        };
        self.agrees(found).then_some(found)
    }
}

ghost use Rattle.std.specs.Prelude.{◌≡◌, ◌-◌, ◌*◌};
ghost use Rattle.rules.specs.Records.{lawful_tare, lawful, earlier as earlier_stamp};
ghost use Rattle.records.specs.RecordsOf.{tare_kind_of, tare_value_of, bounded, record_of};

use crate::mark::Mark;
use loads::{Interval, price};

/// A weight in whole intervals, as a record holds it.
#[derive(Clone, Copy, PartialEq, Eq)]
pub struct Weight(pub u16);

/// The tare of a weighing: none, weighed on the platform, or preset by hand.
#[derive(Clone, Copy, PartialEq, Eq)]
pub enum Tare {
    None,
    Weighed(Weight),
    Preset(Weight),
}

// No `From`: a tare has a kind and a weight, and the name of the function says which is meant.
impl Tare {
    /// The tare, 0 where there is none.
    pub fn weight(self) -> Weight
        ensures { result.0 ≡ tare_value_of self }
    {
        match self {
            // 0 and not an option: by the rules the weight of no tare is 0
            Tare::None => Weight(0),
            Tare::Weighed(weight) | Tare::Preset(weight) => weight,
        }
    }

    /// How it came about, as a row has it: 0 none, 1 weighed, 2 preset.
    pub fn kind(self) -> u8
        ensures { result ≡ tare_kind_of self }
    {
        match self {
            Tare::None => 0,
            Tare::Weighed(_) => 1,
            Tare::Preset(_) => 2,
        }
    }

    /// Whether it may stand in a record: a tare that was set is at least 1.
    fn is_lawful(self) -> bool
        ensures { result ≡ lawful_tare (tare_kind_of self) (tare_value_of self) }
    {
        match self {
            Tare::None => true,
            Tare::Weighed(weight) | Tare::Preset(weight) => weight.0 > 0,
        }
    }
}

/// A weighing as it is stored. Net weight and price follow from the rest.
#[derive(Clone, Copy, PartialEq, Eq)]
pub struct Record {
    /// 1 and up.
    pub number: u32,
    /// Days since 2000-01-01.
    pub day: u16,
    /// Of the day, 0 to 1,439.
    pub minute: u16,
    pub interval: Interval,
    pub gross: Weight,
    pub tare: Tare,
    /// In cents per tonne.
    pub unit_price: u32,
    pub mark: Mark,
}

/// Whether the numbers of a record lie within their bounds.
pub(crate) fn are_bounded(
    number: u32,
    minute: u16,
    gross: Weight,
    tare: Weight,
    net: Weight,
    unit_price: u32,
) -> bool
    ensures { result ≡ bounded number minute gross.0 tare.0 net.0 unit_price }
{
    if number == 0 || minute > 1439 || unit_price > 1_000_000 {
        return false;
    }
    gross.0 <= 10_009 && tare.0 <= 10_000 && net.0 > 0
}

impl Record {
    /// The net weight: gross less tare.
    pub fn net(self) -> Weight
        ensures { result.0 ≡ (record_of self).net }
    {
        Weight(self.gross.0.saturating_sub(self.tare.weight().0))
    }

    /// The price in cents.
    pub fn price(self) -> u64
        ensures { result ≡ (record_of self).price }
    {
        price(
            u32::from(self.net().0) * u32::from(self.interval.kg()),
            self.unit_price,
        )
    }

    /// Whether its numbers lie within their bounds.
    fn is_bounded(self) -> bool
        ensures { result ≡ bounded self.number self.minute self.gross.0 (tare_value_of self.tare) (self.gross.0 - tare_value_of self.tare) self.unit_price }
    {
        are_bounded(
            self.number,
            self.minute,
            self.gross,
            self.tare.weight(),
            self.net(),
            self.unit_price,
        )
    }

    /// Whether it may be stored.
    pub fn is_lawful(self) -> bool
        ensures { result ≡ lawful (record_of self) }
    {
        self.is_bounded() && self.tare.is_lawful()
    }

    /// Whether its stamp, day and then minute, is earlier than that of another.
    pub fn is_earlier(self, other: Record) -> bool
        ensures { result ≡ earlier_stamp (record_of self) (record_of other) }
    {
        (self.day, self.minute) < (other.day, other.minute)
    }
}

ghost use Rattle.std.specs.Prelude.{◌≡◌};
ghost use Rattle.indicator.specs.declared.fault.IndicatorFault.TheVariants.{Cell};
ghost use Rattle.indicator.specs.FaultsOf.{cell_number, fault_number, fault_place};

use rules::Fault;

/// Why a load of the cell is refused.
#[derive(Clone, Copy, PartialEq, Eq)]
pub enum CellFault {
    /// No sound cell sends more than 200,000 tenths either way.
    OutOfRange,
}

/// Why the indicator refuses.
#[derive(Clone, Copy, PartialEq, Eq)]
pub enum IndicatorFault {
    /// The cell's own fault.
    Cell(CellFault),
    /// A weighing is to be stored or voided first.
    Pending,
    /// A tare is set.
    Tared,
    /// The window is not full and stable.
    Unsettled,
    /// The mean is too far from the cell's own zero.
    ZeroRange,
    /// No such tare: it is under 1 or over the largest load.
    TareRange,
    /// The minute is over 1,439.
    Minute,
    /// What was typed is no mark.
    Mark,
    /// The unit price is over 1,000,000.
    UnitPrice,
    /// The platform was not empty since the last weighing.
    Waiting,
    /// The gross weight is under the smallest load.
    UnderMin,
    /// The gross weight is over the largest load and 9 intervals.
    OverMax,
    /// The net weight is under 1.
    NoNet,
}

impl Fault for CellFault {
    ghost number_of = { cell_number };

    ghost place_of = { λ _. 0 };

    fn number(self) -> u8 {
        match self {
            CellFault::OutOfRange => 7,
        }
    }

    fn place(self) -> usize {
        // a match, so that a fault that is added must say its place
        match self {
            CellFault::OutOfRange => 0,
        }
    }
}

/// A fault of the cell is carried whole.
impl From<CellFault> for IndicatorFault {
    ghost from_gives = { λ fault carried. carried ≡ Cell fault };

    fn from(fault: CellFault) -> IndicatorFault {
        IndicatorFault::Cell(fault)
    }
}

impl Fault for IndicatorFault {
    ghost number_of = { fault_number };

    ghost place_of = { fault_place };

    fn number(self) -> u8 {
        match self {
            IndicatorFault::Cell(fault) => fault.number(),
            IndicatorFault::Pending => 8,
            IndicatorFault::Tared => 9,
            IndicatorFault::Unsettled => 10,
            IndicatorFault::ZeroRange => 11,
            IndicatorFault::TareRange => 12,
            IndicatorFault::Minute => 13,
            IndicatorFault::Mark => 14,
            IndicatorFault::UnitPrice => 15,
            IndicatorFault::Waiting => 16,
            IndicatorFault::UnderMin => 17,
            IndicatorFault::OverMax => 18,
            IndicatorFault::NoNet => 19,
        }
    }

    /// No rule names a place for these faults, so it is 0.
    fn place(self) -> usize {
        0
    }
}

ghost use Rattle.std.specs.Prelude.{◌≡◌};
ghost use Rattle.terminal.specs.declared.fault.StoreFault.TheVariants.{Memory};
ghost use Rattle.terminal.specs.FaultsOf.{fault_number, fault_place};

use memory::MemoryFault;
use rules::Fault;

/// Why a store, a print, a verify or a release is refused.
#[derive(Clone, Copy, PartialEq, Eq)]
pub enum StoreFault {
    /// Nothing is pending.
    NothingPending,
    /// The memory's own fault.
    Memory(MemoryFault),
    /// The buffer has no room for a line of 76 bytes.
    ShortBuffer,
    /// This is no line: it has not 76 bytes, or does not begin with ten digits.
    NoLine,
    /// The line differs from the record's, first at this byte.
    Differs(usize),
    /// The keeping time is under 90 days or over 400.
    KeepingTime,
    /// Today is before the newest record's day.
    TodayTooEarly,
    /// The release day and the keeping time come to a day after today.
    TooYoung,
}

impl Fault for StoreFault {
    ghost number_of = { fault_number };

    ghost place_of = { fault_place };

    fn number(self) -> u8 {
        match self {
            StoreFault::NothingPending => 20,
            StoreFault::Memory(fault) => fault.number(),
            StoreFault::ShortBuffer => 25,
            StoreFault::NoLine => 27,
            StoreFault::Differs(_) => 28,
            StoreFault::KeepingTime => 29,
            StoreFault::TodayTooEarly => 30,
            StoreFault::TooYoung => 31,
        }
    }

    /// The byte at which a line differs, the place in a fault from below, or 0.
    fn place(self) -> usize {
        match self {
            StoreFault::Memory(fault) => fault.place(),
            StoreFault::Differs(place) => place,
            _ => 0,
        }
    }
}

/// A fault of the memory is carried whole.
impl From<MemoryFault> for StoreFault {
    ghost from_gives = { λ fault carried. carried ≡ Memory fault };

    fn from(fault: MemoryFault) -> StoreFault {
        StoreFault::Memory(fault)
    }
}

ghost use Rattle.std.specs.Prelude.{◌≡◌};
ghost use Rattle.memory.specs.declared.fault.MemoryFault.TheVariants.{Medium};
ghost use Rattle.memory.specs.Faults.{fault_number, fault_place};

use media::MediumFault;
use rules::Fault;

/// Why a memory refuses.
#[derive(Clone, Copy, PartialEq, Eq)]
pub enum MemoryFault {
    /// The first row, along the round, that breaks the order.
    Disorder(usize),
    /// The stamp is earlier than the newest record's.
    Earlier,
    /// All numbers are used up.
    NoNumber,
    /// There is no next row.
    Full,
    /// No intact record has this number.
    Unknown,
    /// A fault of the medium below.
    Medium(MediumFault),
}

impl Fault for MemoryFault {
    ghost number_of = { fault_number };

    ghost place_of = { fault_place };

    fn number(self) -> u8 {
        match self {
            MemoryFault::Disorder(_) => 21,
            MemoryFault::Earlier => 22,
            MemoryFault::NoNumber => 23,
            MemoryFault::Full => 24,
            MemoryFault::Unknown => 26,
            MemoryFault::Medium(fault) => fault.number(),
        }
    }

    /// The row that breaks the order, the medium's place, or 0.
    fn place(self) -> usize {
        match self {
            MemoryFault::Disorder(row) => row,
            MemoryFault::Medium(fault) => fault.place(),
            MemoryFault::Earlier
            | MemoryFault::NoNumber
            | MemoryFault::Full
            | MemoryFault::Unknown => 0,
        }
    }
}

/// A fault of the medium is carried whole.
impl From<MediumFault> for MemoryFault {
    ghost from_gives = { λ fault carried. carried ≡ Medium fault };

    fn from(fault: MediumFault) -> MemoryFault {
        MemoryFault::Medium(fault)
    }
}

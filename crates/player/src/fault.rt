ghost use Rattle.std.specs.Prelude.{◌≡◌};
ghost use Rattle.player.specs.declared.fault.LineFault.TheVariants.{Trace, Indicator, Store};
ghost use Rattle.player.specs.Faults.{fault_number, fault_place};

use indicator::IndicatorFault;
use rules::Fault;
use terminal::StoreFault;
use trace::TraceFault;

/// Why a running terminal refuses a line of a trace: the fault of the layer that refuses it, carried whole.
#[derive(Clone, Copy, PartialEq, Eq)]
pub(crate) enum LineFault {
    Trace(TraceFault),
    Indicator(IndicatorFault),
    Store(StoreFault),
}

impl Fault for LineFault {
    ghost number_of = { fault_number };

    ghost place_of = { fault_place };

    fn number(self) -> u8 {
        match self {
            LineFault::Trace(fault) => fault.number(),
            LineFault::Indicator(fault) => fault.number(),
            LineFault::Store(fault) => fault.number(),
        }
    }

    fn place(self) -> usize {
        match self {
            LineFault::Trace(fault) => fault.place(),
            LineFault::Indicator(fault) => fault.place(),
            LineFault::Store(fault) => fault.place(),
        }
    }
}

impl From<TraceFault> for LineFault {
    ghost from_gives = { λ fault carried. carried ≡ Trace fault };

    fn from(fault: TraceFault) -> LineFault {
        LineFault::Trace(fault)
    }
}

impl From<IndicatorFault> for LineFault {
    ghost from_gives = { λ fault carried. carried ≡ Indicator fault };

    fn from(fault: IndicatorFault) -> LineFault {
        LineFault::Indicator(fault)
    }
}

impl From<StoreFault> for LineFault {
    ghost from_gives = { λ fault carried. carried ≡ Store fault };

    fn from(fault: StoreFault) -> LineFault {
        LineFault::Store(fault)
    }
}

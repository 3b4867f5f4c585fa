use crate::state::State;
use loads::{Settings, Tenths, Window};
use records::Tare;
use std::marker::Model;

/// The indicator while there is power. Contracts see it as the indicator of the rules.
#[derive(Drop)]
pub struct Indicator {
    pub(crate) settings: Settings,
    pub(crate) zero: Tenths,
    pub(crate) tare: Tare,
    pub(crate) window: Window,
    pub(crate) state: State,
}

/// A tare that is set is at least 1 and at most the largest load.
impl Model for Indicator {
    ghost use Rattle.std.specs.Prelude.{◌≤◌};
    ghost use Rattle.rules.specs.Terminal.{Indicator as TheIndicator};
    ghost use Rattle.loads.specs.SettingsOf.{settings_of};
    ghost use Rattle.records.specs.RecordsOf.{tare_value_of};

    ghost Value = { TheIndicator };

    ghost use Rattle.indicator.specs.Meaning.{meaning};
    ghost use Rattle.indicator.specs.Tares.{least_tare};

    ghost view = { meaning };

    ghost invariant = { λ i. (least_tare i.tare ≤ tare_value_of i.tare) × (tare_value_of i.tare ≤ (settings_of i.settings).max) };
}

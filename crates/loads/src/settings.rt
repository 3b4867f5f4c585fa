ghost use Rattle.std.specs.Prelude.{◌≤◌};
ghost use Rattle.loads.specs.ClassesOf.{class_bounds, class_number};
ghost use Rattle.loads.specs.IntervalsOf.{interval_code};
ghost use Rattle.loads.specs.GoodSettings.{PassesCheck};

use crate::class::Class;
use crate::interval::Interval;

/// The settings of a terminal: its class, its interval, and its largest load in intervals, which lies within the class.
#[derive(Clone, Copy)]
pub struct Settings {
    pub(crate) class: Class,
    pub(crate) interval: Interval,
    pub(crate) max: u16,
    ghost least: { (class_bounds class).least ≤ max },
    ghost most: { max ≤ (class_bounds class).most },
    ghost good: { PassesCheck record { class = class_number class; interval = interval_code interval; max = max } },
}

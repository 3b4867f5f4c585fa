ghost use Rattle.std.specs.Prelude.{◌≡◌};
ghost use Rattle.rules.specs.Settings.{checked, min_of};
ghost use Rattle.loads.specs.ClassesOf.{class_number};
ghost use Rattle.loads.specs.IntervalsOf.{interval_code};
ghost use Rattle.loads.specs.SettingsOf.{settings_of, settings_fault_number, check_says};

use crate::class::Class;
use crate::interval::Interval;
use crate::settings::Settings;
use rules::Fault;

/// Why settings are refused: no such class, no such interval, or a largest load outside the class.
#[derive(Clone, Copy, PartialEq, Eq)]
pub enum SettingsFault {
    Class,
    Interval,
    Max,
}

impl Fault for SettingsFault {
    ghost number_of = { settings_fault_number };

    ghost place_of = { λ _. 0 };

    fn number(self) -> u8 {
        match self {
            SettingsFault::Class => 4,
            SettingsFault::Interval => 5,
            SettingsFault::Max => 6,
        }
    }

    /// No rule names a place for these faults, so it is 0.
    fn place(self) -> usize {
        0
    }
}

impl Settings {
    /// Checks the number of a class, an interval in kg and a largest load in intervals, in this order.
    pub fn check(class: u32, kg: u32, max: u32) -> Result<Settings, SettingsFault>
        ensures { checked class kg max ≡ check_says result }
    {
        let class = Class::try_from(class)?;
        let interval = Interval::from_kg(kg).ok_or(SettingsFault::Interval)?;
        let bounds = class.bounds();
        if max < u32::from(bounds.least) || max > u32::from(bounds.most) {
            return Err(SettingsFault::Max);
        }
        Ok(Settings {
            class,
            interval,
            max: max as u16,
        })
    }

    /// The class.
    pub fn class(self) -> Class
        ensures { class_number result ≡ (settings_of self).class }
    {
        self.class
    }

    /// The interval.
    pub fn interval(self) -> Interval
        ensures { interval_code result ≡ (settings_of self).interval }
    {
        self.interval
    }

    /// The largest load in intervals.
    pub fn max(self) -> u16
        ensures { result ≡ (settings_of self).max }
    {
        self.max
    }

    /// The smallest load in intervals.
    pub fn min(self) -> u16
        ensures { result ≡ min_of (settings_of self) }
    {
        let bounds = self.class.bounds();
        bounds.min
    }
}

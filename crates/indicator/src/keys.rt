//! Opening, samples, zero and the tare keys.

ghost use Rattle.std.specs.Prelude.{◌≡◌, ◌≤◌, IfOk, unsigned_abs, option_map};
ghost use Rattle.rules.specs.Loads.{mean};
ghost use Rattle.rules.specs.Terminal.{sample as a_sample, key as a_key, set_zero, clear_tare, preset_tare, is_empty as is_empty_by_rule, fresh, with_state, voided, after_store};
ghost use Rattle.records.specs.WeighingsOf.{weighing_of};
ghost use Rattle.loads.specs.SettingsOf.{settings_of};
ghost use Rattle.indicator.specs.StatesOf.{pending_in};
ghost use Rattle.indicator.specs.Bounds.{InBounds};
ghost use Rattle.indicator.specs.Answers.{answer, ActsOn, first_of, idle_refusals, untared_refusals, settled_refusals, tare_refusals};

use crate::body::Indicator;
use crate::fault::{CellFault, IndicatorFault};
use crate::state::{Event, State};
use loads::{Intervals, Settings, Tenths, Window};
use records::{Tare, Weighing, Weight};

impl Indicator {
    /// As an opening leaves it: waiting, with zero 0, no tare and an empty window.
    pub fn open(settings: Settings) -> Indicator
        ensures { result ≡ fresh (settings_of settings) }
    {
        Indicator {
            settings,
            zero: Tenths(0),
            tare: Tare::None,
            window: Window::new(),
            state: State::Waiting,
        }
    }

    /// Whether the platform is empty under a load: less the zero it rounds to under the smallest load.
    fn is_empty(&self, load: Tenths) -> bool
        ensures { result ≡ is_empty_by_rule self.now load.0 }
    {
        load.above(self.zero).0 < i32::from(self.settings.min())
    }

    /// Takes a load of the cell. The first from an empty platform makes a waiting indicator ready and empties the window;
    /// every other one joins the window. A load out of range is refused and empties the window.
    pub fn sample(&mut self, load: Tenths) -> Result<(), IndicatorFault>
        ensures { ActsOn (a_sample load.0) self.old (answer result) self.new }
    {
        if !(-200_000..=200_000).contains(&load.0) {
            self.window.clear();
            return Err(CellFault::OutOfRange.into());
        }
        match (self.state, self.is_empty(load)) {
            (State::Waiting, true) => {
                self.state = self.state.after(Event::Empty);
                self.window.clear();
            }
            _ => self.window.push(load),
        }
        Ok(())
    }

    /// Refuses while a weighing is pending.
    pub(crate) fn check_idle(&self) -> Result<(), IndicatorFault>
        ensures { answer result ≡ first_of (idle_refusals self.now) }
    {
        if matches!(self.state, State::Pending(_)) {
            return Err(IndicatorFault::Pending);
        }
        Ok(())
    }

    /// Refuses while a weighing is pending, and while a tare is set.
    pub(crate) fn check_untared(&self) -> Result<(), IndicatorFault>
        ensures { answer result ≡ first_of (untared_refusals self.now) }
    {
        self.check_idle()?;
        if self.tare != Tare::None {
            return Err(IndicatorFault::Tared);
        }
        Ok(())
    }

    /// The mean of a full and stable window.
    pub(crate) fn settled(&self) -> Result<Tenths, IndicatorFault>
        ensures says { answer result ≡ first_of (settled_refusals self.now) }
        ensures mean { IfOk result (λ m. m.0 ≡ mean self.now.window) }
    {
        self.window.settled().ok_or(IndicatorFault::Unsettled)
    }

    /// The weight of a tare; refuses one under 1 or over the largest load.
    pub(crate) fn tare_weight(&self, value: Intervals) -> Result<Weight, IndicatorFault>
        ensures says { answer result ≡ first_of (tare_refusals self.now value.0) }
        ensures value { IfOk result (λ w. w.0 ≡ unsigned_abs value.0) }
        ensures bounds { IfOk result (λ w. (1 ≤ w.0) × (w.0 ≤ self.now.settings.max)) }
    {
        if !(1..=i32::from(self.settings.max())).contains(&value.0) {
            return Err(IndicatorFault::TareRange);
        }
        Ok(Weight(value.0 as u16))
    }

    /// The mean of a full and stable window becomes the zero, if it is within 2 % of the largest load.
    pub fn set_zero(&mut self) -> Result<(), IndicatorFault>
        ensures { ActsOn (a_key set_zero) self.old (answer result) self.new }
    {
        self.check_untared()?;
        let mean = self.settled()?;
        if 5 * i64::from(mean.0).abs() > i64::from(self.settings.max()) {
            return Err(IndicatorFault::ZeroRange);
        }
        self.zero = mean;
        Ok(())
    }

    /// Sets a tare by hand.
    pub fn preset_tare(&mut self, value: Intervals) -> Result<(), IndicatorFault>
        ensures { ActsOn (a_key (preset_tare value.0)) self.old (answer result) self.new }
    {
        self.check_untared()?;
        self.tare = Tare::Preset(self.tare_weight(value)?);
        Ok(())
    }

    /// Unsets the tare.
    pub fn clear_tare(&mut self) -> Result<(), IndicatorFault>
        ensures { ActsOn (a_key clear_tare) self.old (answer result) self.new }
    {
        self.check_idle()?;
        self.tare = Tare::None;
        Ok(())
    }

    /// The weighing that is pending, if one is. Every indicator stays within its bounds (`bounds`), whatever was done with it.
    pub fn pending(&self) -> Option<Weighing>
        ensures says { option_map weighing_of result ≡ pending_in self.now.state }
        ensures bounds { InBounds self.now }
    {
        match self.state {
            State::Pending(weighing) => Some(weighing),
            State::Waiting | State::Ready => None,
        }
    }

    /// The weighing that was pending is stored.
    pub fn stored(&mut self)
        ensures { self.new ≡ with_state self.old (after_store self.old.state) }
    {
        self.state = self.state.after(Event::Stored);
    }

    /// The weighing that was pending is given up.
    pub fn void(&mut self)
        ensures { self.new ≡ with_state self.old (voided self.old.state) }
    {
        self.state = self.state.after(Event::Voided);
    }
}

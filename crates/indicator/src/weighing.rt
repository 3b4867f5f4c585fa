//! Weighing, and the tare that is weighed.

ghost use Rattle.std.specs.Prelude.{◌≡◌, pos, ◌-ℤ◌, IfOk, unsigned_abs};
ghost use Rattle.rules.specs.Terminal.{weigh as a_weigh, key as a_key, take_tare, gross as gross_by_rule, tare_value};
ghost use Rattle.loads.specs.RoundedLoads.{IsRoundedLoad};
ghost use Rattle.indicator.specs.Answers.{answer, ActsOn, first_of, ready_refusals, settled_refusals, load_refusals};
ghost use Rattle.indicator.specs.Entries.{entries_of};

use crate::body::Indicator;
use crate::entered::Entered;
use crate::fault::IndicatorFault;
use crate::state::{Event, State};
use loads::Intervals;
use records::{Record, Tare, Weighing, Weight};

impl Indicator {
    /// Refuses while a weighing is pending, and until the platform was empty.
    fn check_ready(&self) -> Result<(), IndicatorFault>
        ensures { answer result ≡ first_of (ready_refusals self.now) }
    {
        match self.state {
            State::Pending(_) => Err(IndicatorFault::Pending),
            State::Waiting => Err(IndicatorFault::Waiting),
            State::Ready => Ok(()),
        }
    }

    /// The gross weight of a full and stable window.
    fn gross(&self) -> Result<Intervals, IndicatorFault>
        ensures says { answer result ≡ first_of (settled_refusals self.now) }
        ensures gross { IfOk result (λ g. g.0 ≡ gross_by_rule self.now) }
        ensures bounds { IfOk result (λ g. IsRoundedLoad g.0) }
    {
        Ok(self.settled()?.above(self.zero))
    }

    /// The gross weight of a full and stable window becomes the tare.
    pub fn take_tare(&mut self) -> Result<(), IndicatorFault>
        ensures { ActsOn (a_key take_tare) self.old (answer result) self.new }
    {
        self.check_untared()?;
        let gross = self.gross()?;
        self.tare = Tare::Weighed(self.tare_weight(gross)?);
        Ok(())
    }

    /// The net weight of a gross weight.
    fn net(&self, gross: Intervals) -> Intervals
        requires { IsRoundedLoad gross.0 }
        ensures { result.0 ≡ gross.0 -ℤ pos (tare_value self.now.tare) }
    {
        Intervals(gross.0 - i32::from(self.tare.weight().0))
    }

    /// The gross weight; refuses one under the smallest load or too far over the largest, and a net weight under 1.
    fn load(&self) -> Result<Weight, IndicatorFault>
        ensures says { answer result ≡ first_of (load_refusals self.now) }
        ensures gross { IfOk result (λ w. w.0 ≡ unsigned_abs (gross_by_rule self.now)) }
    {
        let gross = self.gross()?;
        if gross.0 < i32::from(self.settings.min()) {
            return Err(IndicatorFault::UnderMin);
        }
        if gross.0 > i32::from(self.settings.max()) + 9 {
            return Err(IndicatorFault::OverMax);
        }
        if self.net(gross).0 < 1 {
            return Err(IndicatorFault::NoNet);
        }
        Ok(Weight(gross.0 as u16))
    }

    /// Weighs the lorry on the platform, which makes its weighing pending.
    pub fn weigh(&mut self, entered: Entered<'_>) -> Result<(), IndicatorFault>
        ensures { ActsOn (a_weigh (entries_of entered.entry)) self.old (answer result) self.new }
    {
        let mark = entered.check()?;
        self.check_ready()?;
        let gross = self.load()?;
        // number 0: by the rules a weighing has no other until it is stored
        let weighing = Weighing::try_from(Record {
            number: 0,
            day: entered.day,
            minute: entered.minute as u16,
            interval: self.settings.interval(),
            gross,
            tare: self.tare,
            unit_price: entered.unit_price,
            mark,
        });
        self.state = self.state.after(Event::Weighed(weighing.unwrap()));
        Ok(())
    }
}

//! The calls that leave the memory alone: samples, zero, the tare keys, weigh and void.

ghost use Rattle.rules.specs.Terminal.{sample as a_sample, key as a_key, set_zero, take_tare, clear_tare, preset_tare, weigh as a_weigh, void as a_void, done};
ghost use Rattle.indicator.specs.Answers.{answer};
ghost use Rattle.indicator.specs.Entries.{entries_of};
ghost use Rattle.terminal.specs.Worlds.{ActsAlone};

use crate::body::Terminal;
use crate::claim::Claim;
use indicator::{Entered, IndicatorFault};
use loads::{Intervals, Tenths};
use media::Medium;

// They only pass on: what the indicator does is done by the terminal, whose memory stays as it is.
impl<M: Medium> Terminal<M> {
    /// Takes a load of the cell.
    pub fn sample(&mut self, load: Tenths) -> Result<(), IndicatorFault>
        ensures { ActsAlone M.rows M.count (a_sample load.0) self.old (answer result) self.new }
    {
        self.indicator.sample(load)
    }

    /// Makes the mean of a full and stable window the zero.
    pub fn set_zero(&mut self) -> Result<(), IndicatorFault>
        ensures { ActsAlone M.rows M.count (a_key set_zero) self.old (answer result) self.new }
    {
        self.indicator.set_zero()
    }

    /// Makes the gross weight the tare.
    pub fn take_tare(&mut self) -> Result<(), IndicatorFault>
        ensures { ActsAlone M.rows M.count (a_key take_tare) self.old (answer result) self.new }
    {
        self.indicator.take_tare()
    }

    /// Sets a tare by hand.
    pub fn preset_tare(&mut self, value: Intervals) -> Result<(), IndicatorFault>
        ensures { ActsAlone M.rows M.count (a_key (preset_tare value.0)) self.old (answer result) self.new }
    {
        self.indicator.preset_tare(value)
    }

    /// Unsets the tare.
    pub fn clear_tare(&mut self) -> Result<(), IndicatorFault>
        ensures { ActsAlone M.rows M.count (a_key clear_tare) self.old (answer result) self.new }
    {
        self.indicator.clear_tare()
    }

    /// Weighs the lorry on the platform; its weighing is then pending, and the claim is the right to store or void it.
    pub fn weigh(&mut self, entered: Entered<'_>) -> Result<Claim, IndicatorFault>
        ensures { ActsAlone M.rows M.count (a_weigh (entries_of entered.entry)) self.old (answer result) self.new }
    {
        self.indicator.weigh(entered)?;
        Ok(Claim(()))
    }

    /// Gives up the weighing that is pending.
    pub fn void(&mut self, claim: Claim)
        ensures { ActsAlone M.rows M.count a_void self.old done self.new }
    {
        let Claim(_) = claim;
        self.indicator.void();
    }
}

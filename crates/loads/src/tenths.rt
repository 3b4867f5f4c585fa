ghost use Rattle.std.specs.Prelude.{◌≡◌, ◌-ℤ◌};
ghost use Rattle.rules.specs.Loads.{rounded};
ghost use Rattle.loads.specs.RoundedLoads.{IsRoundedLoad};

use crate::rounding::nearest;

/// A load in tenths of an interval, as the cell sends it.
#[derive(Clone, Copy, PartialEq, Eq)]
pub struct Tenths(pub i32);

/// A load in whole intervals.
#[derive(Clone, Copy, PartialEq, Eq)]
pub struct Intervals(pub i32);

impl Tenths {
    /// This load above a zero, rounded to whole intervals: nearest, ties away from zero.
    pub fn above(self, zero: Tenths) -> Intervals
        ensures value { result.0 ≡ rounded (self.0 -ℤ zero.0) }
        ensures bounds { IsRoundedLoad result.0 }
    {
        Intervals(nearest::<10>(i64::from(self.0) - i64::from(zero.0)) as i32)
    }

    /// This load rounded to whole intervals.
    pub fn round(self) -> Intervals
        ensures { result.0 ≡ rounded self.0 }
    {
        self.above(Tenths(0))
    }
}

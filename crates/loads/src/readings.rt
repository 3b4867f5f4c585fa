ghost use Rattle.std.specs.Prelude.{◌≡◌, ◌&&◌, [], ◌∷◌, ◌++◌, length, drop, pos, negsuc, ◌≤ℤ◌, if◌then◌else◌, ◌==◌, nat_eq, slice_index_or, None, Some, option_map};
ghost use Rattle.rules.specs.Loads.{sum as sum_of, mean as mean_of, highest, lowest, stable};
ghost use Rattle.rules.specs.Terminal.{last_eight};
ghost use Rattle.loads.specs.WindowsOf.{tenths_of, window_of};

use crate::rounding::nearest;
use crate::tenths::Tenths;
use crate::window::Window;

/// The smallest and the largest of eight samples, and their sum.
#[derive(Clone, Copy)]
struct Extent {
    low: i32,
    high: i32,
    sum: i64,
}

impl Extent {
    /// The extent of eight samples.
    #[tactic(auto, using(crate::proofs::Extents::sum_end, crate::proofs::Extents::lowest_end, crate::proofs::Extents::lowest_start, crate::proofs::Extents::highest_end, crate::proofs::Extents::highest_start))]
    fn of(samples: [i32; 8]) -> Extent
        ensures low { result.low ≡ lowest (slice_index_or samples 0 (pos 0)) (drop 1 samples) }
        ensures high { result.high ≡ highest (slice_index_or samples 0 (pos 0)) (drop 1 samples) }
        ensures sum { result.sum ≡ sum_of samples }
        ensures bounds { (negsuc 17179869183 ≤ℤ result.sum) × (result.sum ≤ℤ pos 17179869176) }
    {
        // one `for` finds all three, by a rule of the project
        let mut low = samples[0];
        let mut high = samples[0];
        let mut sum = 0;
        for sample in samples {
            low = low.min(sample);
            high = high.max(sample);
            sum += i64::from(sample);
        }
        Extent { low, high, sum }
    }
}

impl Window {
    /// A window with no samples.
    pub fn new() -> Window
        ensures { window_of result ≡ [] }
    {
        Window {
            samples: [0; 8],
            len: 0,
        }
    }

    /// Forgets all samples.
    pub fn clear(&mut self)
        ensures { window_of self.new ≡ [] }
    {
        self.len = 0;
    }

    /// Takes in a sample; a full window drops its oldest.
    #[tactic(auto, using(crate::proofs::Joins::joined_below, crate::proofs::Joins::joined_full))]
    pub fn push(&mut self, load: Tenths)
        ensures { window_of self.new ≡ last_eight (window_of self.old ++ (load.0 ∷ [])) }
    {
        if self.len < 8 {
            self.samples[self.len] = load.0;
            self.len += 1;
        } else {
            self.samples.rotate_left(1);
            self.samples[7] = load.0;
        }
    }

    /// Whether the window has eight samples.
    pub fn is_full(&self) -> bool
        ensures { result ≡ (length (window_of self.now) == 8) }
    {
        self.len == 8
    }

    /// The mean of a full window: nearest, ties away from zero.
    #[tactic(auto, using(crate::proofs::Extents::full_mean, crate::proofs::Roundings::eighth_fits))]
    pub fn mean(&self) -> Option<Tenths>
        ensures { option_map tenths_of result ≡ (if nat_eq (length (window_of self.now)) 8 then Some (mean_of (window_of self.now)) else None) }
    {
        // no `then_some`: only of eight samples is it known that their mean fits
        if self.is_full() {
            Some(Tenths(nearest::<8>(Extent::of(self.samples).sum) as i32))
        } else {
            None
        }
    }

    /// Whether the window is full and its largest sample exceeds its smallest by at most 5 tenths.
    #[tactic(auto, using(crate::proofs::Extents::full_stable))]
    pub fn is_stable(&self) -> bool
        ensures { result ≡ (length (window_of self.now) == 8 && stable (window_of self.now)) }
    {
        if !self.is_full() {
            return false;
        }
        let extent = Extent::of(self.samples);
        i64::from(extent.high) - i64::from(extent.low) <= 5
    }

    /// The mean of a window that is full and stable.
    pub fn settled(&self) -> Option<Tenths>
        ensures { option_map tenths_of result ≡ (if nat_eq (length (window_of self.now)) 8 && stable (window_of self.now) then Some (mean_of (window_of self.now)) else None) }
    {
        // no `then`: a closure for one call is no plainer
        if self.is_stable() { self.mean() } else { None }
    }
}

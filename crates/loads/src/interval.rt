ghost use Rattle.std.specs.Prelude.{◌≡◌, if◌then◌else◌, ◌==◌, nat_lt, None, Some, option_map};
ghost use Rattle.std.specs.List.{find};
ghost use Rattle.rules.specs.Loads.{kg_of};
ghost use Rattle.rules.specs.Settings.{code_of_kg};
ghost use Rattle.loads.specs.IntervalsOf.{interval_code};

/// The weight that one interval stands for: 1, 2, 5, 10, 20 or 50 kg.
#[derive(Clone, Copy, PartialEq, Eq)]
pub enum Interval {
    One,
    Two,
    Five,
    Ten,
    Twenty,
    Fifty,
}

// Constant tables, by a rule of the project.
/// The six intervals, by code.
const INTERVALS: [Interval; 6] = [
    Interval::One,
    Interval::Two,
    Interval::Five,
    Interval::Ten,
    Interval::Twenty,
    Interval::Fifty,
];

/// The kg of each interval, by code.
const KILOGRAMS: [u8; 6] = [1, 2, 5, 10, 20, 50];

/// The first of these intervals that stands for so many kg.
fn first_of_kg(intervals: &[Interval], kg: u32) -> Option<Interval>
    ensures { result ≡ find (λ i. kg_of (interval_code i) == kg) intervals.now }
{
    intervals
        .iter()
        .copied()
        .find(|interval| u32::from(interval.kg()) == kg)
}

// No `TryFrom`: an interval has two numbers, its code and its kg, and the name of the function says which is meant.
impl Interval {
    /// The code that stands for the interval in a row, 0 to 5.
    pub fn code(self) -> u8
        ensures { result ≡ interval_code self }
    {
        self as u8
    }

    /// The interval in kg.
    pub fn kg(self) -> u8
        ensures { result ≡ kg_of (interval_code self) }
    {
        KILOGRAMS[self as usize]
    }

    /// The interval of a code; none from 6 on.
    pub fn from_code(code: u8) -> Option<Interval>
        ensures { option_map interval_code result ≡ (if nat_lt code 6 then Some code else None) }
    {
        INTERVALS.get(usize::from(code)).copied()
    }

    /// The interval of so many kg, if it is one of the six.
    pub fn from_kg(kg: u32) -> Option<Interval>
        ensures { option_map interval_code result ≡ code_of_kg kg }
    {
        first_of_kg(&INTERVALS, kg)
    }
}

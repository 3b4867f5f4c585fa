ghost use Rattle.std.specs.Prelude.{◌≡◌, ◌<◌, pos, negsuc, ◌≤ℤ◌};
ghost use Rattle.rules.specs.Loads.{nearest as nearest_by_rule};

/// How many wholes of so many parts are nearest to a value in parts: ties away from zero.
pub(crate) fn nearest<const PARTS: u32>(value: i64) -> i64
    requires parts { 0 < PARTS }
    requires value { (negsuc 17179869183 ≤ℤ value) × (value ≤ℤ pos 17179869183) }
    ensures { result ≡ nearest_by_rule PARTS value }
{
    let whole = (value.unsigned_abs() + u64::from(PARTS / 2)) / u64::from(PARTS);
    if value < 0 {
        -(whole as i64)
    } else {
        whole as i64
    }
}

//! The last digits of a number.

ghost use Rattle.std.specs.Prelude.{◌≡◌, ◌+◌, ◌<◌, ◌≤◌, map};
ghost use Rattle.rules.specs.Lists.{digits_of};

/// The last `N` digits of a number in a base, most significant first, as characters that count on from `ZERO`.
pub(crate) fn digits<const BASE: u64, const ZERO: u8, const N: usize>(value: u64) -> [u8; N]
    requires some { 0 < BASE }
    requires bytes { ZERO + BASE ≤ 256 }
    ensures { result ≡ map (λ digit. digit + ZERO) (digits_of BASE N value) }
{
    // last digit first, and then turned round: of what `iter_mut().rev()` leaves, no clause says anything yet
    let mut out = [0; N];
    let mut rest = value;
    for digit in out.iter_mut() {
        *digit = ZERO + (rest % BASE) as u8;
        rest /= BASE;
    }
    out.reverse();
    out
}

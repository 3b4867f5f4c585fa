//! Ticket lines, as they are written into a buffer and held against a record's.

ghost use Rattle.std.specs.Prelude.{◌≡◌, ◌≤◌, ◌++◌, ◌==◌, not, length, drop};
ghost use Rattle.std.specs.List.{position_from, zip};
ghost use Rattle.rules.specs.Terminal.{difference as difference_by_rule};

/// Writes a line into the first bytes of a buffer.
pub(crate) fn fill(out: &mut [u8], line: &[u8; 76])
    requires { 76 ≤ length out.old }
    ensures { out.new ≡ line.now ++ drop 76 out.old }
{
    out[..76].copy_from_slice(line);
}

/// The first place at which two texts differ, as far as the shorter goes.
fn first_difference(text: &[u8], line: &[u8]) -> Option<usize>
    ensures { result ≡ position_from (λ p. not (p.0 == p.1)) 0 (zip text.now line.now) }
{
    text.iter()
        .zip(line)
        .position(|(byte, other)| byte != other)
}

/// The first byte at which a line differs from a record's.
pub(crate) fn difference(text: &[u8], line: &[u8; 76]) -> Option<usize>
    requires { length text.now ≡ 76 }
    ensures { result ≡ difference_by_rule 0 text.now line.now }
{
    first_difference(text, line)
}

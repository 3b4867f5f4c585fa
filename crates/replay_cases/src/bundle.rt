//! Where the cases of a bundle begin, and their names.

ghost use Rattle.std.specs.Prelude.{ℕ, ◌≡◌, ◌≤◌, ◌<◌, ◌+◌, ◌-◌, ◌==◌, true, false, IfSome, MatchOption, [], ◌∷◌, length, take, drop, position};
ghost use Rattle.replay_cases.specs.Bundles.{begins, begins_at, name_size};

/// Whether three bytes end a line and begin a case.
fn begins(start: &[u8]) -> bool
    ensures { result ≡ begins start.now }
{
    matches!(start, [b'\n', b'=', b' '])
}

/// Where the line feed stands that ends the line in front of the next case, if there is one.
fn next_feed(bytes: &[u8]) -> Option<usize>
    ensures found { IfSome result (λ feed. (feed + 3 ≤ length bytes.now) × (begins_at feed bytes.now ≡ true)) }
    ensures first { MatchOption result ((k : ℕ) → k + 3 ≤ length bytes.now → begins_at k bytes.now ≡ false) (λ feed. (k : ℕ) → k < feed → begins_at k bytes.now ≡ false) }
{
    bytes.windows(3).position(begins)
}

/// Where the next line that begins a case begins, behind the line that the bytes begin in; where they end, if none does.
pub(crate) fn next_case(bytes: &[u8]) -> usize
    ensures inside { result ≤ length bytes.now }
    ensures begins { result < length bytes.now → (0 < result) × (begins_at (result - 1) bytes.now ≡ true) }
    ensures first { (k : ℕ) → k + 1 < result → k + 3 ≤ length bytes.now → begins_at k bytes.now ≡ false }
{
    next_feed(bytes).map_or(bytes.len(), |feed| feed + 1)
}

/// Where the first case begins; where the bytes end, if there is none.
pub(crate) fn first_case(bytes: &[u8]) -> usize
    ensures inside { result ≤ length bytes.now }
    ensures begins { 0 < result → result < length bytes.now → begins_at (result - 1) bytes.now ≡ true }
    ensures start { take 2 bytes.now ≡ 61 ∷ 32 ∷ [] → result ≡ 0 }
    ensures only { result ≡ 0 → 0 < length bytes.now → take 2 bytes.now ≡ 61 ∷ 32 ∷ [] }
    ensures first { (k : ℕ) → k + 1 < result → k + 3 ≤ length bytes.now → begins_at k bytes.now ≡ false }
{
    if bytes.starts_with(b"= ") {
        0
    } else {
        next_case(bytes)
    }
}

/// Where the line feed stands that ends the name of a case, if one does.
fn name_end(case: &[u8]) -> Option<usize>
    ensures { result ≡ position (λ b. b == 10) case.now }
{
    case.iter().position(|&byte| byte == b'\n')
}

/// The name of a case, and its trace behind the line feed that ends the name.
pub(crate) fn split_name(case: &[u8]) -> (&[u8], &[u8])
    ensures name { result.0.now ≡ take (name_size case.now) case.now }
    ensures trace { result.1.now ≡ drop (name_size case.now + 1) case.now }
{
    let size = name_end(case).unwrap_or(case.len());
    (&case[..size], case.get(size + 1..).unwrap_or(&[]))
}

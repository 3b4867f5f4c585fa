ghost use Rattle.std.specs.Prelude.{◌≤◌};

// No `Model`: seen as a list, a window forgets its places past `len`, so a copy would ask that `clear` and `push` hold them at 0.
/// The last eight samples in tenths of an interval, oldest first.
#[derive(Clone, Copy)]
pub struct Window {
    // eight places and how many are in use, by a rule of the project: a terminal has no heap
    pub(crate) samples: [i32; 8],
    pub(crate) len: usize,
    ghost within: { len ≤ 8 },
}

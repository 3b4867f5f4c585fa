ghost use Rattle.std.specs.Prelude.{◌≤◌};

/// Up to 64 pages, in the order in which a release erases them.
#[derive(Clone, Copy)]
pub struct Pages {
    // an array with a length: this is public and Copy, which an ArrayVec is not, and a device has no heap for a list
    pub(crate) list: [usize; 64],
    pub(crate) len: usize,
    ghost within: { len ≤ 64 },
}

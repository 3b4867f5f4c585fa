ghost use Rattle.std.specs.Prelude.{◌≤◌, length};

/// The words of a line that are not read yet: they begin at the place, and end where the text does. Past the end there is none.
// The trace up to the line's end, with a place in it, for the same reason as in `Reader`.
#[derive(Drop)]
pub(crate) struct Fields<'a> {
    pub(crate) text: &'a [u8],
    pub(crate) place: usize,
    ghost limit: { length text.now ≤ 32768 },
}

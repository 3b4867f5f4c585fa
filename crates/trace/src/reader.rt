ghost use Rattle.std.specs.Prelude.{◌≤◌, length};

/// Walks over a trace line by line. It stands at the beginning of a line or at the end.
// The whole trace, with a place in it: a rule of the project, so that nothing is copied and a mark can say where in the trace it begins.
#[derive(Drop)]
pub struct Reader<'a> {
    pub(crate) trace: &'a [u8],
    pub(crate) place: usize,
    pub(crate) lines: usize,
    ghost limit: { length trace.now ≤ 32768 },
    ghost inside: { place ≤ length trace.now },
    ghost counted: { lines ≤ place },
}

use indicator::Indicator;
use media::Medium;

/// A terminal with power, over the medium that holds its memory. To let it go is to switch it off.
// Clauses name `M.rows` and `M.count` beside one another: they are the two halves of what a medium means.
#[derive(Drop)]
pub struct Terminal<M: Medium> {
    pub(crate) indicator: Indicator,
    pub(crate) medium: M,
}

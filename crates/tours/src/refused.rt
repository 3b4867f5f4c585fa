ghost use Rattle.std.specs.Prelude.{◌++◌, codes, Some};
ghost use Rattle.std.specs.Fmt.{decimal};

use rules::Fault;
use std::fmt;

/// What is written of a refusal: the number of its fault, and its place.
#[derive(Clone, Copy)]
pub struct Refused<F: Fault>(pub F);

impl<F: Fault> fmt::Display for Refused<F> {
    ghost output = { λ refused. Some (codes "refused " ++ decimal (F.number_of refused.0) ++ codes " at " ++ decimal (F.place_of refused.0)) };

    fn fmt<W: fmt::Write>(&self, f: &mut fmt::Formatter<W>) -> fmt::Result {
        write!(f, "refused {} at {}", self.0.number(), self.0.place())
    }
}

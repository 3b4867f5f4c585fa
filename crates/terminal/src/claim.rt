/// The right to store or void the weighing that is pending. A claim is never let go: a store or a void takes it.
pub struct Claim(pub(crate) ());

ghost use Rattle.std.specs.Prelude.{◌≡◌, true};
ghost use Rattle.rules.specs.Records.{lawful_mark};

/// The mark of a lorry: eight characters of six bits each, of which the first is no space and none follows a space.
/// Code 0 is a space, 1 to 10 are the digits, 11 to 36 the letters A to Z.
#[derive(Clone, Copy, PartialEq, Eq)]
pub struct Mark {
    pub(crate) codes: [u8; 8],
    ghost known: { lawful_mark codes ≡ true },
}

/// What was typed is no mark.
#[derive(Clone, Copy, PartialEq, Eq)]
pub struct NoMark;

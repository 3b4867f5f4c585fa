ghost use Rattle.std.specs.Prelude.{◌≡◌, codes, if◌then◌else◌, None, Some};
ghost use Rattle.std.specs.Result.{result_ok};
ghost use Rattle.std.specs.Str.{bytes_eq};
ghost use Rattle.rules.specs.declared.kind.MediumKind.TheVariants.{Flash, Sectors};

use std::fmt;
use std::str::FromStr;

/// The kinds of media.
#[derive(Clone, Copy, Debug, PartialEq, Eq)]
pub enum MediumKind {
    /// A write clears bits, and only an erase sets them again.
    Flash,
    /// A page is copied, changed and written back whole.
    Sectors,
}

/// A word that is no kind of medium.
#[derive(Clone, Copy, Debug, PartialEq, Eq)]
pub struct NoKind;

/// The kind that a word is for.
impl FromStr for MediumKind {
    type Err = NoKind;

    ghost from_str_gives = { λ word read. result_ok read ≡ (if bytes_eq word (codes "flash") then Some Flash else if bytes_eq word (codes "sectors") then Some Sectors else None) };

    fn from_str(word: &str) -> Result<MediumKind, NoKind> {
        match word {
            "flash" => Ok(MediumKind::Flash),
            "sectors" => Ok(MediumKind::Sectors),
            _ => Err(NoKind),
        }
    }
}

/// Writes the word for the kind, the one that is read as it.
impl fmt::Display for MediumKind {
    ghost output = { λ kind. Some (elim kind [ Flash ↦ codes "flash" | Sectors ↦ codes "sectors" ]) };

    fn fmt<W: fmt::Write>(&self, f: &mut fmt::Formatter<W>) -> fmt::Result {
        f.write_str(match self {
            MediumKind::Flash => "flash",
            MediumKind::Sectors => "sectors",
        })
    }
}

//! What a word may be.

ghost use Rattle.std.specs.Prelude.{◌≡◌, ◌<◌, ◌==◌, position, IfSome, option_map};
ghost use Rattle.rules.specs.Trace.{a_byte, a_number, a_load, a_day, a_mark, a_kind};
ghost use Rattle.trace.specs.Meaning.{kind_of};

use rules::{MediumKind, read_decimal};

/// A number has at most so many digits.
const LONGEST_NUMBER: usize = 9;

/// A mark has at most so many bytes.
const LONGEST_MARK: usize = 8;

/// The first place of a byte, if there is one.
pub(crate) fn find(bytes: &[u8], byte: u8) -> Option<usize>
    ensures { result ≡ position (λ b. b == byte) bytes.now }
{
    bytes.iter().position(|&b| b == byte)
}

/// The one byte of a word.
#[tactic(auto, unfolding(rules::specs::Trace::a_byte))]
pub(crate) fn single(word: &[u8]) -> Option<u8>
    ensures { result ≡ a_byte word.now }
{
    match word {
        [byte] => Some(*byte),
        _ => None,
    }
}

/// A number of 1 to 9 digits.
// No `parse`: it takes a plus in front too, which no number of a trace has.
pub(crate) fn number(word: &[u8]) -> Option<u32>
    ensures value { result ≡ a_number word.now }
    ensures small { IfSome result (λ n. n < 1000000000) }
{
    if !(1..=LONGEST_NUMBER).contains(&word.len()) {
        return None;
    }
    Some(read_decimal(word)? as u32)
}

/// A number, perhaps with a minus in front.
#[tactic(auto, using(crate::proofs::WordsRead::too_short, crate::proofs::WordsTaken::unsigned), unfolding(rules::specs::Trace::a_load))]
pub(crate) fn load(word: &[u8]) -> Option<i32>
    ensures { result ≡ a_load word.now }
{
    match word {
        [b'-', digits @ ..] => Some(-(number(digits)? as i32)),
        _ => Some(number(word)? as i32),
    }
}

/// A number of at most 65,535.
#[tactic(auto, unfolding(rules::specs::Trace::a_day))]
pub(crate) fn day(word: &[u8]) -> Option<u16>
    ensures { result ≡ a_day word.now }
{
    u16::try_from(number(word)?).ok()
}

/// A mark as it was typed: 1 to 8 bytes.
#[tactic(auto, unfolding(rules::specs::Trace::a_mark))]
pub(crate) fn mark(word: &[u8]) -> Option<&[u8]>
    ensures value { option_map (λ x. x.now) result ≡ a_mark word.now }
    ensures same { IfSome result (λ m. m.now ≡ word.now) }
{
    (1..=LONGEST_MARK).contains(&word.len()).then_some(word)
}

/// The kind of a medium by its letter.
#[tactic(auto, unfolding(rules::specs::Trace::a_kind, rules::specs::Trace::a_byte))]
pub(crate) fn kind(word: &[u8]) -> Option<MediumKind>
    ensures { option_map kind_of result ≡ a_kind word.now }
{
    // An option, and no `TryFrom` for a byte: its error would be dropped at once, and the word would be taken apart first.
    match word {
        [b'F'] => Some(MediumKind::Flash),
        [b'S'] => Some(MediumKind::Sectors),
        _ => None,
    }
}

ghost use Rattle.std.specs.Prelude.{◌≡◌, ◌+◌, ◌*◌, ◌/◌, ◌%◌, ◌^◌, ◌<◌, ◌≤◌, ◌==◌, [], ◌∷◌, map, length, position, unwrap_or, nat_le, nat_lt, if◌then◌else◌, IfSome, None, Some};
ghost use Rattle.std.specs.List.{list_all};
ghost use Rattle.rules.specs.Lists.{number_of, digits_of};
ghost use Rattle.rules.specs.Records.{lawful_mark, code_of, character_of, typed_mark};
ghost use Rattle.records.specs.Meaning.{codes_of, mark_says};

use crate::bits::beside;
use crate::digits::digits;
use crate::mark::{Mark, NoMark};

/// The code of a character, where it has one.
fn code_of(character: u8) -> Option<u8>
    ensures code { unwrap_or result 63 ≡ code_of character }
    ensures known { IfSome result (λ code. code ≤ 36) }
{
    match character {
        b' ' => Some(0),
        b'0'..=b'9' => Some(character - 47),
        b'A'..=b'Z' => Some(character - 54),
        _ => None,
    }
}

/// The character of a code.
fn character_of(code: u8) -> u8
    requires { code ≤ 36 }
    ensures { result ≡ character_of code }
{
    match code {
        0 => b' ',
        1..=10 => code + 47,
        _ => code + 54,
    }
}

/// Where the first space stands.
fn first_space(codes: &[u8]) -> Option<usize>
    ensures { result ≡ position (λ code. code == 0) codes.now }
{
    codes.iter().position(|&code| code == 0)
}

/// Whether each is the code of a character.
fn are_known(codes: &[u8]) -> bool
    ensures { result ≡ list_all (λ code. nat_le code 36) codes.now }
{
    codes.iter().all(|&code| code <= 36)
}

/// Whether each is the code of a space.
fn are_spaces(codes: &[u8]) -> bool
    ensures { result ≡ list_all (λ code. code == 0) codes.now }
{
    codes.iter().all(|&code| code == 0)
}

/// Whether these are the codes of a mark.
fn is_mark(codes: &[u8; 8]) -> bool
    ensures { result ≡ lawful_mark codes.now }
{
    let len = first_space(codes).unwrap_or(8);
    let (text, spaces) = codes.split_at(len);
    len > 0 && are_known(text) && are_spaces(spaces)
}

impl Mark {
    /// The mark with these codes.
    // No `TryFrom`, which would be public: codes stay within this crate.
    pub(crate) fn from_codes(codes: [u8; 8]) -> Result<Mark, NoMark>
        ensures { mark_says result ≡ (if lawful_mark codes then Some codes else None) }
    {
        if is_mark(&codes) {
            Ok(Mark { codes })
        } else {
            Err(NoMark)
        }
    }

    // Not by `TryFrom`: these are characters, and the name tells them from codes.
    /// The mark that was typed, filled up with spaces; refused unless it is 1 to 8 capital letters and digits, and spaces only behind them.
    pub fn typed(bytes: &[u8]) -> Result<Mark, NoMark>
        ensures { mark_says result ≡ (if lawful_mark (typed_mark bytes.now) then Some (typed_mark bytes.now) else None) }
    {
        if bytes.len() > 8 {
            return Err(NoMark);
        }
        let mut codes = [b' '; 8];
        codes[..bytes.len()].copy_from_slice(bytes);
        for code in codes.iter_mut() {
            *code = code_of(*code).ok_or(NoMark)?;
        }
        Mark::from_codes(codes)
    }

    // No `From`: the number stays within this crate, as the codes do.
    /// The eight codes as one number of 48 bits, the first code first.
    pub(crate) fn value(self) -> u64
        ensures value { result ≡ number_of 64 0 (codes_of self) }
        ensures bits { result < 2 ^ 48 }
    {
        let mut value = 0;
        for code in self.codes {
            value = beside(value, 6, u64::from(code));
        }
        value
    }

    // No `TryFrom`, as for `from_codes`.
    /// The mark in a number of 48 bits.
    pub(crate) fn from_value(value: u64) -> Result<Mark, NoMark>
        ensures { mark_says result ≡ (if lawful_mark (digits_of 64 8 value) then Some (digits_of 64 8 value) else None) }
    {
        Mark::from_codes(digits::<64, 0, 8>(value))
    }

    /// The eight characters, in ASCII.
    pub fn characters(self) -> [u8; 8]
        ensures { result ≡ map character_of (codes_of self) }
    {
        let mut text = self.codes;
        // no `map`: `character_of` has a precondition, and then the proof of an array's `map` does not close
        for code in text.iter_mut() {
            *code = character_of(*code);
        }
        text
    }
}

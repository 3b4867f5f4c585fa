ghost use Rattle.std.specs.Prelude.{◌≡◌, ◌^◌, ◌<◌, ◌&&◌, length, nat_le, if◌then◌else◌, None, Some};
ghost use Rattle.rules.specs.Terminal.{all_digits, written};

/// A number of so many digits fits into 64 bits.
const LONGEST: usize = 19;

/// The number that up to 19 digits write; none where some character is no digit.
pub fn read_decimal(text: &[u8]) -> Option<u64>
    ensures { result ≡ (if nat_le (length text.now) 19 && all_digits text.now then Some (written text.now) else None) }
{
    if text.len() > LONGEST {
        return None;
    }
    let mut number = 0;
    for byte in text {
        number = number * 10 + u64::from(char::from(*byte).to_digit(10)?);
    }
    Some(number)
}

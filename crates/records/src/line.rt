//! The ticket line of a record.

ghost use Rattle.std.specs.Prelude.{◌≡◌, ◌+◌, ◌-◌, ◌<◌, ◌≤◌, ◌&&◌, [], ◌∷◌, ◌++◌, length, take, if◌then◌else◌, nat_eq, None, Some};
ghost use Rattle.arrayvec.specs.ArrayVec.{array_vec_len};
ghost use Rattle.rules.specs.Terminal.{all_digits, number_in};
ghost use Rattle.rules.specs.Tickets.{decimal as decimal_of, tare_letters, ticket};
ghost use Rattle.records.specs.RecordsOf.{tare_kind_of, record_of};

use crate::digits::digits;
use crate::record::{Record, Tare};
use arrayvec::ArrayVec;
use rules::read_decimal;

/// The last `N` digits of a number, in ASCII, with leading zeros.
pub fn decimal<const N: usize>(value: u64) -> [u8; N]
    ensures { result ≡ decimal_of N value }
{
    digits::<10, b'0', N>(value)
}

/// Some characters more of a line, and the byte behind them.
fn put(line: &mut ArrayVec<u8, 76>, text: &[u8], end: u8)
    requires { array_vec_len line.old + length text.now + 1 ≤ 76 }
    ensures text { line.new.items ≡ line.old.items ++ (text.now ++ (end ∷ [])) }
    ensures len { array_vec_len line.new ≡ array_vec_len line.old + length text.now + 1 }
{
    line.try_extend_from_slice(text).unwrap();
    line.push(end);
}

impl Tare {
    /// The letters that tell a tare on paper: two dashes for none, else T and a space.
    fn letters(self) -> [u8; 2]
        ensures { result ≡ tare_letters (tare_kind_of self) }
    {
        match self {
            Tare::None => [b'-', b'-'],
            Tare::Weighed(_) | Tare::Preset(_) => [b'T', b' '],
        }
    }
}

// No `Display`: a line is 76 bytes for a caller's buffer, with no heap, and a formatter would first have to be one over a buffer.
impl Record {
    /// The ticket line: 76 bytes of ASCII with a line feed at the end; weights in kg.
    pub fn line(self) -> [u8; 76]
        ensures { result ≡ ticket (record_of self) }
    {
        let kg = u64::from(self.interval.kg());
        let mut line = ArrayVec::new();
        put(&mut line, &decimal::<10>(u64::from(self.number)), b' ');
        put(&mut line, &decimal::<5>(u64::from(self.day)), b' ');
        put(&mut line, &decimal::<4>(u64::from(self.minute)), b' ');
        put(&mut line, &self.mark.characters(), b' ');
        put(&mut line, &decimal::<2>(kg), b' ');
        put(&mut line, &decimal::<6>(u64::from(self.gross.0) * kg), b' ');
        put(&mut line, &self.tare.letters(), b' ');
        put(
            &mut line,
            &decimal::<6>(u64::from(self.tare.weight().0) * kg),
            b' ',
        );
        put(&mut line, &decimal::<6>(u64::from(self.net().0) * kg), b' ');
        put(&mut line, &decimal::<7>(u64::from(self.unit_price)), b' ');
        put(&mut line, &decimal::<9>(self.price()), b'\n');
        line.into_inner().unwrap()
    }
}

/// The number of the record whose line this may be: its first ten characters; none unless it has 76 bytes and begins with ten digits.
pub fn line_number(line: &[u8]) -> Option<u64>
    ensures { result ≡ (if nat_eq (length line.now) 76 && all_digits (take 10 line.now) then Some (number_in line.now) else None) }
{
    if line.len() != 76 {
        return None;
    }
    read_decimal(&line[0..10])
}

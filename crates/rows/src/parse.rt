//! A row written as 64 hex digits.

ghost use Rattle.std.specs.Prelude.{◌≡◌};
ghost use Rattle.rows.specs.Hex.{row_in};

use hex::FromHex;

/// The row that a line writes, if it is 64 hex digits.
pub(crate) fn parse_row(line: &[u8]) -> Option<[u8; 32]>
    ensures { result ≡ row_in line.now }
{
    <[u8; 32]>::from_hex(line).ok()
}

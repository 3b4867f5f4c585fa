//! A record as a row of the memory, and the judge of a row.

ghost use Rattle.std.specs.Prelude.{◌≡◌, ◌+◌, ◌-◌, ◌/◌, ◌%◌, ◌^◌, ◌<◌, replicate, if◌then◌else◌, ◌==◌, count_ones, None, Some};
ghost use Rattle.rules.specs.Lists.{same, number_of};
ghost use Rattle.rules.specs.Records.{lawful};
ghost use Rattle.rules.specs.Rows.{packing, unpacked, judged};
ghost use Rattle.records.specs.RecordsOf.{record_of};
ghost use Rattle.records.specs.Verdicts.{verdict_of, packed_says};

use crate::bits::low_bits;
use crate::fields::Fields;
use crate::record::Record;
use crate::words::{row_of, words_of};

/// What a row turns out to be.
#[derive(Clone, Copy, PartialEq, Eq)]
pub enum Verdict {
    /// All ones: nothing was programmed, or nothing is left of it.
    Blank,
    /// Neither blank nor the row of a record.
    Damaged(Damage),
    /// The row of a lawful record.
    Intact(Record),
}

/// What gives a damaged row away.
#[derive(Clone, Copy, PartialEq, Eq)]
pub enum Damage {
    /// The check is not the number of zero bits before it.
    Check,
    /// The check is right, but the fields are no lawful record's.
    Fields,
}

/// The record is not lawful, so it has no row.
#[derive(Clone, Copy, PartialEq, Eq)]
pub struct Unlawful;

/// Whether all bits are ones.
// Not by `is_blank`, which would be no plainer: the judge has the row in words already, and this is one comparison.
fn are_ones(words: [u64; 4]) -> bool
    ensures { result ≡ same words (replicate 4 (2 ^ 64 - 1)) }
{
    words == [u64::MAX; 4]
}

/// How many bits before the check are zero.
fn zero_bits(words: [u64; 4]) -> u64
    ensures { result + count_ones (number_of (2 ^ 64) 0 words / 256) ≡ 248 }
{
    let [a, b, c, d] = words;
    let set = a.count_ones() + b.count_ones() + c.count_ones() + (d >> 8).count_ones();
    u64::from(248 - set)
}

/// Whether the last byte is the number of zero bits before it.
fn is_checked(words: [u64; 4]) -> bool
    ensures { result ≡ (number_of (2 ^ 64) 0 words % 256 == 248 - count_ones (number_of (2 ^ 64) 0 words / 256)) }
{
    words[3] & 0xFF == zero_bits(words)
}

/// Judges a row: first whether it is blank, then its check, then its fields.
pub fn judge(row: &[u8; 32]) -> Verdict
    ensures { verdict_of result ≡ judged row.now }
{
    let words = words_of(row);
    if are_ones(words) {
        return Verdict::Blank;
    }
    if !is_checked(words) {
        return Verdict::Damaged(Damage::Check);
    }
    Fields::read(words)
        .record()
        .map_or(Verdict::Damaged(Damage::Fields), Verdict::Intact)
}

/// The number in the fields of a row, be the row intact or not.
pub fn number_in(row: &[u8; 32]) -> u32
    ensures { result ≡ (unpacked row.now).number }
{
    // behind the kind and before 24 more bits of the first word; no plainer by a `Reader`, which would take the kind off only to drop it
    let [first, _, _, _] = words_of(row);
    low_bits(first >> 24, 32) as u32
}

// Not by a trait: the row is one of several texts of a record, and the name says which.
impl Record {
    /// The row of the record; refused unless the record is lawful.
    pub fn pack(self) -> Result<[u8; 32], Unlawful>
        ensures { packed_says result ≡ (if lawful (record_of self) then Some (packing (record_of self)) else None) }
    {
        if !self.is_lawful() {
            return Err(Unlawful);
        }
        let [a, b, c, d] = Fields::of(self).words();
        let check = zero_bits([a, b, c, d]);
        Ok(row_of([a, b, c, d + check]))
    }
}

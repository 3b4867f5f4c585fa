//! What the rows of a memory hold, and the newest record in them.

ghost use Rattle.std.specs.Prelude.{◌≡◌, option_map};
ghost use Rattle.rules.specs.Rows.{read_row, is_blank};
ghost use Rattle.rules.specs.Memory.{row_at, newest as newest_of};
ghost use Rattle.records.specs.RecordsOf.{record_of};
ghost use Rattle.memory.specs.Entries.{row_in, entry_of, entry_read, entry_in, is_older, better_of};

use crate::entry::Entry;
use media::Medium;
use records::{Record, Verdict, judge, number_in};
use rules::is_blank;

/// The bytes of a row, if the memory has it.
fn bytes_of<M: Medium>(m: &M, row: usize) -> Option<[u8; 32]>
    ensures { result ≡ row_in (M.rows m.now) row }
{
    let mut bytes = [0; 32];
    m.read(row, &mut bytes).ok()?;
    Some(bytes)
}

/// Whether a row of a memory is blank.
pub(crate) fn is_blank_at<M: Medium>(m: &M, row: usize) -> bool
    ensures { result ≡ is_blank (row_at (M.rows m.now) row) }
{
    bytes_of(m, row).is_some_and(
        |bytes| -> bool
            ensures { result ≡ is_blank bytes }
        { is_blank(&bytes) },
    )
}

/// The record of an intact row.
fn intact(row: &[u8; 32]) -> Option<Record>
    ensures { option_map record_of result ≡ read_row row.now }
{
    match judge(row) {
        Verdict::Intact(found) => Some(found),
        Verdict::Blank | Verdict::Damaged(_) => None,
    }
}

/// The record in the bytes of a row, if the row is intact.
fn entry(row: usize, bytes: &[u8; 32]) -> Option<Entry>
    ensures { option_map entry_of result ≡ entry_read row bytes.now }
{
    let weighing = intact(bytes)?;
    Some(Entry { row, weighing })
}

/// The record in a row, if the row is intact.
pub(crate) fn entry_at<M: Medium>(m: &M, row: usize) -> Option<Entry>
    ensures { option_map entry_of result ≡ entry_in (M.rows m.now) row }
{
    let bytes = bytes_of(m, row)?;
    entry(row, &bytes)
}

/// Whether a row with these bytes is older than the best so far, as its number alone shows.
fn is_older(bytes: &[u8; 32], best: Option<Entry>) -> bool
    ensures { result ≡ is_older bytes.now (option_map entry_of best) }
{
    best.is_some_and(|found| number_in(bytes) < found.weighing.number)
}

/// The record in a row, or the best of the rows behind it: the one with the larger number, the first of equals.
fn better<M: Medium>(m: &M, row: usize, best: Option<Entry>) -> Option<Entry>
    ensures { option_map entry_of result ≡ better_of (entry_in (M.rows m.now) row) (option_map entry_of best) }
{
    // an older row need not be judged
    bytes_of(m, row)
        .filter(|bytes| !is_older(bytes, best))
        .and_then(
            |bytes| -> Option<Entry>
                ensures { option_map entry_of result ≡ entry_read row bytes }
            { entry(row, &bytes) },
        )
        .or(best)
}

/// The newest record: the intact one with the largest number, in the lowest row among equals.
pub fn newest<M: Medium>(m: &M) -> Option<Entry>
    ensures { option_map entry_of result ≡ newest_of (M.rows m.now) }
{
    // an indexed loop over the rows, by a rule of the project: from the last on, since most rows are then older than the best so far
    let mut best = None;
    for row in (0..m.size() * 16).rev() {
        best = better(m, row, best);
    }
    best
}

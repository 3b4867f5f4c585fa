//! A page, and what is told of its rows: the free one, whether one of them holds a record or one from a day on, and whether
//! all are blank.

ghost use Rattle.std.specs.Prelude.{◌≡◌, ◌+◌, ◌*◌, ◌<◌};
ghost use Rattle.rules.specs.Memory.{rows_of, intact_in, free_in, dated_from, all_blank};
ghost use Rattle.memory.specs.Rounds.{any_record};

use crate::reading::{entry_at, is_blank_at};
use media::Medium;
use std::ops::Range;

/// A page that a memory can have.
#[derive(Clone, Copy)]
pub(crate) struct Page {
    pub(crate) number: usize,
    ghost within: { number < 64 },
}

impl Page {
    /// Its first row.
    pub(crate) fn first_row(self) -> usize
        ensures { result ≡ 16 * self.number }
    {
        self.number * 16
    }

    /// Its rows.
    fn rows(self) -> Range<usize>
        ensures start { result.start ≡ 16 * self.number }
        ensures end { result.end ≡ 16 * self.number + 16 }
    {
        self.first_row()..self.first_row() + 16
    }
}

/// The row after the last row of a page that is not blank, unless the page ends in one.
pub(crate) fn free_in<M: Medium>(m: &M, page: Page) -> Option<usize>
    ensures { result ≡ free_in (M.rows m.now) page.number }
{
    let Range { start, end } = page.rows();
    let last = (start..end).rfind(|&row| !is_blank_at(m, row));
    let free = last.map_or(start, |row| row + 1);
    (free < end).then_some(free)
}

/// Whether one of these rows is intact.
pub(crate) fn holds_record<M: Medium>(m: &M, mut rows: Range<usize>) -> bool
    ensures { result ≡ any_record (M.rows m.now) rows.start rows.end }
{
    rows.any(|row| entry_at(m, row).is_some())
}

/// Whether a page holds a record of the day or later.
pub(crate) fn dated_from<M: Medium>(m: &M, day: u16, page: Page) -> bool
    ensures { result ≡ dated_from day (intact_in (M.rows m.now) (rows_of page.number)) }
{
    page.rows().any(|row| entry_at(m, row).is_some_and(|entry| day <= entry.weighing.day))
}

/// Whether all rows of a page are blank.
pub(crate) fn all_blank<M: Medium>(m: &M, page: Page) -> bool
    ensures { result ≡ all_blank (M.rows m.now) (rows_of page.number) }
{
    page.rows().all(|row| is_blank_at(m, row))
}

ghost use Rattle.std.specs.Prelude.{◌≡◌, ℕ, List, ◌*◌, ◌/◌, ◌%◌, ◌^◌, ◌<◌, ◌≤◌, length, IfOk, IfErr, OnOk, OnErr, if◌then◌else◌};
ghost use Rattle.rules.specs.Rows.{blank_row};
ghost use Rattle.rules.specs.Media.{accepted, refused, is_medium_size, row_in, rows_in, reads, programs, erases};
ghost use Rattle.media.specs.Outcomes.{outcome, check_outcome};

use crate::bytes::{check_bytes, read_row};
use crate::medium::MediumFault;
use rules::is_blank;

/// Lent bytes that passed their check, and how often they were written.
#[derive(Drop)]
pub struct Cells<'a> {
    pub(crate) bytes: &'a mut [u8],
    pub(crate) writes: u32,
    ghost whole: { length bytes.now % 512 ≡ 0 },
    ghost least: { 1024 ≤ length bytes.now },
    ghost most: { length bytes.now ≤ 32768 },
    ghost fits: { writes < 2 ^ 32 },
}

impl<'a> Cells<'a> {
    ghost use Rattle.media.specs.Cells.{bytes_of, lender_of};

    /// Checks lent bytes as `check_bytes` does, and keeps them as they are; a refusal hands them back.
    pub fn check(bytes: &'a mut [u8]) -> Result<Cells<'a>, (&'a mut [u8], MediumFault)>
        ensures says { check_outcome result ≡ (if is_medium_size (length bytes.old) then accepted else refused 1 0) }
        ensures bytes { IfOk result (λ cells. bytes_of cells ≡ bytes.old) }
        ensures lender { IfOk result (λ cells. lender_of cells ≡ bytes.entry.ghost_name) }
        ensures handed_back { IfErr result (λ refused. (refused.0.now ≡ bytes.old) × (refused.0.ghost_name ≡ bytes.entry.ghost_name)) }
    {
        match check_bytes(&*bytes) {
            Ok(()) => Ok(Cells { bytes, writes: 0 }),
            Err(fault) => Err((bytes, fault)),
        }
    }

    /// Gives the bytes back, as they are now.
    pub(crate) fn into_bytes(self) -> &'a mut [u8]
        ensures bytes { result.now ≡ bytes_of self.entry }
        ensures lender { result.ghost_name ≡ lender_of self.entry }
    {
        let Cells { bytes, writes: _ } = self;
        bytes
    }
}

impl Cells<'_> {
    ghost use Rattle.media.specs.Cells.{WritesOnce};

    /// The number of pages.
    pub(crate) fn size(&self) -> usize
        ensures pages { result ≡ length self.now.bytes.now / 512 }
        ensures rows { length (rows_in self.now.bytes.now) ≡ 16 * result }
    {
        self.bytes.len() / 512
    }

    /// Fills `out` with a row.
    pub(crate) fn read(&self, row: usize, out: &mut [u8; 32]) -> Result<(), MediumFault>
        ensures { reads (rows_in self.now.bytes.now) row out.old ≡ (outcome result, out.new) }
    {
        read_row(&*self.bytes, row, out)
    }

    /// Where a row starts, if a program may write it: the row is inside and blank.
    pub(crate) fn find_blank(&self, row: usize) -> Result<usize, MediumFault>
        ensures start { IfOk result (λ start. start ≡ row * 32) }
        ensures inside { OnOk result (row < length self.now.bytes.now / 32) }
        ensures blank { OnOk result (row_in self.now.bytes.now row ≡ blank_row) }
        ensures refusal { OnErr result ((writes : ℕ) (new : List ℕ) → programs (rows_in self.now.bytes.now) writes row new ≡ (outcome result, rows_in self.now.bytes.now, writes)) }
    {
        let mut was = [0; 32];
        self.read(row, &mut was)?;
        if !is_blank(&was) {
            return Err(MediumFault::NotBlank(row));
        }
        Ok(row * 32)
    }

    /// Where a page starts, if it is inside.
    pub(crate) fn find_page(&self, page: usize) -> Result<usize, MediumFault>
        ensures start { IfOk result (λ start. start ≡ page * 512) }
        ensures inside { OnOk result (page < length self.now.bytes.now / 512) }
        ensures refusal { OnErr result ((writes : ℕ) → erases (rows_in self.now.bytes.now) writes page ≡ (outcome result, rows_in self.now.bytes.now, writes)) }
    {
        if page >= self.size() {
            return Err(MediumFault::Outside(page));
        }
        Ok(page * 512)
    }

    /// Counts one more write, modulo 2^32.
    pub(crate) fn count_write(&mut self)
        ensures once { WritesOnce self.old self.new }
        ensures bytes { self.new.bytes.now ≡ self.old.bytes.now }
    {
        self.writes = self.writes.wrapping_add(1);
    }
}

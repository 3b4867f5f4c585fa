ghost use Rattle.std.specs.Prelude.{◌≡◌, ◌+◌, ◌%◌, ◌≤◌, length, take, drop};
ghost use borrow.Rule.Slice.PartMut.{put_mid};
ghost use Rattle.rules.specs.Media.{rows_in};
ghost use Rattle.rules.proofs.MediaLaws.{shaped};
ghost use Rattle.media.specs.Cells.{WritesOnce};

use crate::cells::Cells;
use crate::medium::{Medium, MediumFault};

/// An erased sector, which is one page.
const ERASED: [u8; 512] = [0xFF; 512];

/// Rewritable sectors: every write rewrites one page whole.
// What both kinds do alike is in `Cells`; that each kind has a text of its own, short methods too, is a rule of the project.
#[derive(Drop)]
pub struct Sectors<'a> {
    cells: Cells<'a>,
}

impl<'a> Sectors<'a> {
    ghost use Rattle.media.specs.Cells.{bytes_of, lender_of, sectors_cells};

    /// A medium over bytes that passed their check; they stay as they are.
    pub fn over(mut cells: Cells<'a>) -> Sectors<'a>
        ensures bytes { bytes_of (sectors_cells result) ≡ bytes_of cells.entry }
        ensures rows { ⟦<Sectors<'a> as Medium>⟧.rows result ≡ rows_in (bytes_of cells.entry) }
        ensures lender { ⟦<Sectors<'a> as Medium>⟧.lender result ≡ lender_of cells.entry }
        ensures count { ⟦<Sectors<'a> as Medium>⟧.count result ≡ 0 }
    {
        cells.writes = 0;
        Sectors { cells }
    }

    /// Gives the bytes back, as they are now.
    pub fn into_bytes(self) -> &'a mut [u8]
        ensures bytes { result.now ≡ bytes_of (sectors_cells self.entry) }
        ensures rows { rows_in result.now ≡ ⟦<Sectors<'a> as Medium>⟧.rows self.entry }
        ensures lender { result.ghost_name ≡ ⟦<Sectors<'a> as Medium>⟧.lender self.entry }
    {
        let Sectors { cells } = self;
        cells.into_bytes()
    }
}

/// The bytes of the page that starts here.
fn page_at(cells: &Cells<'_>, start: usize) -> [u8; 512]
    requires { start + 512 ≤ length cells.now.bytes.now }
    ensures { result ≡ take 512 (drop start cells.now.bytes.now) }
{
    let mut sector = ERASED;
    sector.copy_from_slice(&cells.bytes[start..start + 512]);
    sector
}

/// Rewrites the page that starts here whole, which is one write.
fn rewrite(cells: &mut Cells<'_>, start: usize, sector: &[u8; 512])
    requires { start + 512 ≤ length cells.old.bytes.now }
    ensures bytes { cells.new.bytes.now ≡ put_mid start 512 cells.old.bytes.now sector.now }
    ensures once { WritesOnce cells.old cells.new }
{
    cells.bytes[start..start + 512].copy_from_slice(sector);
    cells.count_write();
}

/// Rewrites the page of the row that starts here with these bytes in it.
fn write_row(cells: &mut Cells<'_>, start: usize, bytes: &[u8; 32])
    requires inside { start + 32 ≤ length cells.old.bytes.now }
    requires row { start % 32 ≡ 0 }
    ensures bytes { cells.new.bytes.now ≡ put_mid start 32 cells.old.bytes.now bytes.now }
    ensures once { WritesOnce cells.old cells.new }
{
    let page = start / 512 * 512;
    let at = start % 512;
    let mut sector = page_at(&*cells, page);
    sector[at..at + 32].copy_from_slice(bytes);
    rewrite(cells, page, &sector);
}

impl<'a> Medium for Sectors<'a> {
    ghost rows = { λ m. rows_in m.cells.bytes.now };

    ghost count = { λ m. m.cells.writes };

    ghost lender = { λ m. m.cells.bytes.ghost_name };

    ghost fits = { λ m. m.cells.fits };

    ghost shape = { λ m. shaped m.cells.bytes.now m.cells.whole m.cells.least m.cells.most };

    fn size(&self) -> usize {
        self.cells.size()
    }

    fn writes(&self) -> u32 {
        self.cells.writes
    }

    fn read(&self, row: usize, out: &mut [u8; 32]) -> Result<(), MediumFault> {
        self.cells.read(row, out)
    }

    #[tactic(auto, using(crate::proofs::Ends::program_ends))]
    fn program(&mut self, row: usize, bytes: &[u8; 32]) -> Result<(), MediumFault> {
        let cells = &mut self.cells;
        let start = cells.find_blank(row)?;
        write_row(cells, start, bytes);
        Ok(())
    }

    fn erase(&mut self, page: usize) -> Result<(), MediumFault> {
        let start = self.cells.find_page(page)?;
        rewrite(&mut self.cells, start, &ERASED);
        Ok(())
    }
}

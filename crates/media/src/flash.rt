ghost use Rattle.std.specs.Prelude.{◌≡◌};
ghost use Rattle.rules.specs.Media.{rows_in};
ghost use Rattle.rules.proofs.MediaLaws.{shaped};

use crate::bytes::{clear_bits, set_bits};
use crate::cells::Cells;
use crate::medium::{Medium, MediumFault};

/// Flash: a program clears bits, and only the erase of a page sets them again.
// What both kinds do alike is in `Cells`; that each kind has a text of its own, short methods too, is a rule of the project.
#[derive(Drop)]
pub struct Flash<'a> {
    cells: Cells<'a>,
}

impl<'a> Flash<'a> {
    ghost use Rattle.media.specs.Cells.{bytes_of, lender_of, flash_cells};

    /// A medium over bytes that passed their check; they stay as they are.
    pub fn over(mut cells: Cells<'a>) -> Flash<'a>
        ensures bytes { bytes_of (flash_cells result) ≡ bytes_of cells.entry }
        ensures rows { ⟦<Flash<'a> as Medium>⟧.rows result ≡ rows_in (bytes_of cells.entry) }
        ensures lender { ⟦<Flash<'a> as Medium>⟧.lender result ≡ lender_of cells.entry }
        ensures count { ⟦<Flash<'a> as Medium>⟧.count result ≡ 0 }
    {
        cells.writes = 0;
        Flash { cells }
    }

    /// Gives the bytes back, as they are now.
    pub fn into_bytes(self) -> &'a mut [u8]
        ensures bytes { result.now ≡ bytes_of (flash_cells self.entry) }
        ensures rows { rows_in result.now ≡ ⟦<Flash<'a> as Medium>⟧.rows self.entry }
        ensures lender { result.ghost_name ≡ ⟦<Flash<'a> as Medium>⟧.lender self.entry }
    {
        let Flash { cells } = self;
        cells.into_bytes()
    }
}

impl<'a> Medium for Flash<'a> {
    ghost rows = { λ m. rows_in m.cells.bytes.now };

    ghost count = { λ m. m.cells.writes };

    ghost lender = { λ m. m.cells.bytes.ghost_name };

    ghost fits = { λ m. m.cells.fits };

    ghost shape = { λ m. shaped m.cells.bytes.now m.cells.whole m.cells.least m.cells.most };

    fn size(&self) -> usize {
        self.cells.size()
    }

    fn writes(&self) -> u32 {
        self.cells.writes
    }

    fn read(&self, row: usize, out: &mut [u8; 32]) -> Result<(), MediumFault> {
        self.cells.read(row, out)
    }

    #[tactic(auto, using(crate::proofs::Ends::program_ends))]
    fn program(&mut self, row: usize, bytes: &[u8; 32]) -> Result<(), MediumFault> {
        let cells = &mut self.cells;
        let start = cells.find_blank(row)?;
        clear_bits(&mut cells.bytes[start..start + 32], bytes);
        cells.count_write();
        Ok(())
    }

    #[tactic(auto, using(crate::proofs::Ends::erase_ends))]
    fn erase(&mut self, page: usize) -> Result<(), MediumFault> {
        let cells = &mut self.cells;
        let start = cells.find_page(page)?;
        set_bits(&mut cells.bytes[start..start + 512]);
        cells.count_write();
        Ok(())
    }
}

ghost use Rattle.std.specs.Prelude.{◌≡◌, ℕ, ◌*◌, ◌^◌, ◌<◌, length};
ghost use Rattle.std.specs.Borrow.{GName};
ghost use Rattle.rules.specs.Memory.{Rows};
ghost use Rattle.rules.specs.Media.{Shaped, reads, programs, erases};
ghost use Rattle.media.specs.Outcomes.{fault_number, fault_place, outcome};

use rules::Fault;

/// Why a medium refuses.
#[derive(Clone, Copy, PartialEq, Eq)]
pub enum MediumFault {
    /// The bytes are not 512 for each of 2 to 64 pages.
    Size,
    /// There is no such row or page.
    Outside(usize),
    /// The row is not blank.
    NotBlank(usize),
}

impl Fault for MediumFault {
    ghost number_of = { fault_number };

    ghost place_of = { fault_place };

    fn number(self) -> u8 {
        match self {
            MediumFault::Size => 1,
            MediumFault::Outside(_) => 2,
            MediumFault::NotBlank(_) => 3,
        }
    }

    /// The row or page that was asked for, or 0.
    fn place(self) -> usize {
        match self {
            MediumFault::Size => 0,
            MediumFault::Outside(place) | MediumFault::NotBlank(place) => place,
        }
    }
}

/// A medium of 2 to 64 pages of 16 rows of 32 bytes. Its meaning is the list of its rows and its count of writes.
pub trait Medium {
    ghost rows: { Self → Rows };

    ghost count: { Self → ℕ };

    /// The bytes that it was made over, by the name of the reference to them.
    ghost lender: { Self → GName };

    /// Each kind proves: the count fits 32 bits, and the rows have the shape of a medium.
    ghost fits: { (m : Self) → count m < 2 ^ 32 };

    ghost shape: { (m : Self) → Shaped (rows m) };

    /// The number of pages.
    fn size(&self) -> usize
        ensures { length (rows self.now) ≡ 16 * result };

    /// The number of accepted programs and erases since the making, modulo 2^32.
    fn writes(&self) -> u32
        ensures { result ≡ count self.now };

    /// Fills `out` with a row.
    fn read(&self, row: usize, out: &mut [u8; 32]) -> Result<(), MediumFault>
        ensures { reads (rows self.now) row out.old ≡ (outcome result, out.new) };

    /// Turns a blank row into these bytes.
    fn program(&mut self, row: usize, bytes: &[u8; 32]) -> Result<(), MediumFault>
        ensures says { programs (rows self.old) (count self.old) row bytes.now ≡ (outcome result, rows self.new, count self.new) }
        ensures lender { lender self.new ≡ lender self.old };

    /// Makes the 16 rows of a page blank.
    fn erase(&mut self, page: usize) -> Result<(), MediumFault>
        ensures says { erases (rows self.old) (count self.old) page ≡ (outcome result, rows self.new, count self.new) }
        ensures lender { lender self.new ≡ lender self.old };
}

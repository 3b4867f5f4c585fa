ghost use Rattle.std.specs.Prelude.{◌≡◌, length, replicate, if◌then◌else◌};
ghost use Rattle.rules.specs.Rows.{blank_row};
ghost use Rattle.rules.specs.Media.{accepted, refused, is_medium_size, rows_in, reads};
ghost use Rattle.media.specs.Outcomes.{outcome};

use crate::medium::MediumFault;

/// Checks that bytes make a medium: 512 for each of 2 to 64 pages. Their content does not matter.
pub fn check_bytes(bytes: &[u8]) -> Result<(), MediumFault>
    ensures { outcome result ≡ (if is_medium_size (length bytes.now) then accepted else refused 1 0) }
{
    let size = bytes.len();
    if size % 512 == 0 && size >= 1024 && size <= 32768 {
        Ok(())
    } else {
        Err(MediumFault::Size)
    }
}

/// Fills `out` with a row of the bytes.
#[tactic(auto, using(crate::proofs::Chunks::chunks_are))]
pub(crate) fn read_row(bytes: &[u8], row: usize, out: &mut [u8; 32]) -> Result<(), MediumFault>
    ensures { reads (rows_in bytes.now) row out.old ≡ (outcome result, out.new) }
{
    let (rows, _) = bytes.as_chunks::<32>();
    *out = *rows.get(row).ok_or(MediumFault::Outside(row))?;
    Ok(())
}

/// Clears the bits of a blank row that are zero in these bytes.
pub(crate) fn clear_bits(row: &mut [u8], bytes: &[u8; 32])
    requires { row.old ≡ blank_row }
    ensures { row.new ≡ bytes.now }
{
    // by index: of what `iter_mut().zip(..)` leaves, no clause says anything yet
    for (i, byte) in bytes.iter().enumerate() {
        row[i] &= *byte;
    }
}

/// Sets all bits of a page.
pub(crate) fn set_bits(page: &mut [u8])
    requires { length page.old ≡ 512 }
    ensures { page.new ≡ replicate 512 255 }
{
    page.fill(0xFF);
}

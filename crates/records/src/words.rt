//! A row of 32 bytes as four words of 64 bits, most significant byte first.

ghost use Rattle.std.specs.Prelude.{◌≡◌, ◌^◌, map};
ghost use Rattle.std.specs.Int.{w64, to_be_bytes, from_be_bytes};
ghost use Rattle.std.specs.Simd.{first_chunks};
ghost use Rattle.rules.specs.Lists.{number_of, digits_of};

/// The bytes of a row, eight to a word.
fn chunks_of(row: &[u8; 32]) -> [[u8; 8]; 4]
    ensures { result ≡ first_chunks 8 4 row.now }
{
    let (chunks, _) = row.as_chunks::<8>();
    <[[u8; 8]; 4]>::try_from(chunks).unwrap()
}

/// The word of each eight bytes.
fn words_in(chunks: [[u8; 8]; 4]) -> [u64; 4]
    ensures { result ≡ map (λ bytes. from_be_bytes w64 bytes) chunks }
{
    chunks.map(u64::from_be_bytes)
}

/// The words of a row.
pub(crate) fn words_of(row: &[u8; 32]) -> [u64; 4]
    ensures { result ≡ digits_of (2 ^ 64) 4 (number_of 256 0 row.now) }
{
    words_in(chunks_of(row))
}

/// The bytes of each word.
fn bytes_of(words: [u64; 4]) -> [[u8; 8]; 4]
    ensures { result ≡ map (λ word. to_be_bytes w64 word) words }
{
    words.map(u64::to_be_bytes)
}

/// The row of words.
pub(crate) fn row_of(words: [u64; 4]) -> [u8; 32]
    ensures { result ≡ digits_of 256 32 (number_of (2 ^ 64) 0 words) }
{
    let mut row = [0; 32];
    row.copy_from_slice(bytes_of(words).as_flattened());
    row
}

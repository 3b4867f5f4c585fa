//! Fields of a few bits each, side by side in words of 64 bits, through an accumulator.

ghost use Rattle.std.specs.Prelude.{◌≡◌, ◌+◌, ◌-◌, ◌*◌, ◌/◌, ◌%◌, ◌^◌, ◌<◌, ◌≤◌, length};
ghost use Rattle.rules.specs.Lists.{number_of};
ghost use Rattle.records.specs.Widths.{width_of};

/// A field of a row.
#[derive(Clone, Copy)]
pub(crate) enum Field {
    Kind,
    Number,
    Day,
    Minute,
    Interval,
    Gross,
    TareKind,
    Tare,
    Net,
    UnitPrice,
    Price,
    Mark,
    Spare,
    Check,
}

// A constant table, by a rule of the project.
/// The width of each field in bits, in the order of the row.
const WIDTHS: [u32; 14] = [8, 32, 16, 11, 3, 14, 2, 14, 14, 20, 29, 48, 37, 8];

impl Field {
    fn width(self) -> u32
        ensures width { result ≡ width_of self }
        ensures bounds { (1 ≤ result) × (result ≤ 48) }
    {
        WIDTHS[self as usize]
    }
}

/// The lowest bits of a word.
pub(crate) fn low_bits(word: u64, bits: u32) -> u64
    requires { bits < 64 }
    ensures { result ≡ word % 2 ^ bits }
{
    word & ((1 << bits) - 1)
}

/// A number with so many bits behind it.
pub(crate) fn beside(high: u64, bits: u32, low: u64) -> u64
    requires few { bits < 64 }
    requires fits { low < 2 ^ bits }
    requires room { high * 2 ^ bits + low < 2 ^ 64 }
    ensures { result ≡ high * 2 ^ bits + low }
{
    high << bits | low
}

/// Takes fields off four words, from the most significant bit on.
#[derive(Drop)]
pub(crate) struct Reader {
    words: [u64; 4],
    next: usize,
    held: u64,
    bits: u32,
    ghost fits: { held < 2 ^ bits },
    ghost few: { bits ≤ 64 },
    ghost within: { next ≤ 4 },
    ghost whole: { length words ≡ 4 },
}

impl Reader {
    ghost use Rattle.records.specs.Streams.{unread, bits_unread};

    pub(crate) fn new(words: [u64; 4]) -> Reader
        ensures all { unread result ≡ number_of (2 ^ 64) 0 words }
        ensures count { bits_unread result ≡ 256 }
    {
        Reader {
            words,
            next: 0,
            held: 0,
            bits: 0,
        }
    }

    // By index: a field reaches into one more word at most, and that word is known by its place.
    /// The value of the next field.
    pub(crate) fn take(&mut self, field: Field) -> u64
        requires enough { width_of field ≤ bits_unread self.old }
        ensures split { unread self.old ≡ result * 2 ^ bits_unread self.new + unread self.new }
        ensures count { bits_unread self.new + width_of field ≡ bits_unread self.old }
        ensures fits { result < 2 ^ width_of field }
    {
        let width = field.width();
        if width <= self.bits {
            let rest = self.bits - width;
            let value = self.held >> rest;
            self.held = low_bits(self.held, rest);
            self.bits = rest;
            value
        } else {
            let more = width - self.bits;
            let word = self.words[self.next];
            let rest = 64 - more;
            let value = beside(self.held, more, word >> rest);
            self.next += 1;
            self.held = low_bits(word, rest);
            self.bits = rest;
            value
        }
    }
}

/// Lays fields side by side in four words, from the most significant bit on.
// Not one struct with `Reader`: that holds up to 64 bits and this fewer, and each clause reads the words from its own end.
#[derive(Drop)]
pub(crate) struct Writer {
    words: [u64; 4],
    next: usize,
    held: u64,
    bits: u32,
    ghost fits: { held < 2 ^ bits },
    ghost few: { bits < 64 },
    ghost within: { next ≤ 4 },
}

impl Writer {
    ghost use Rattle.records.specs.Streams.{written, bits_written};

    pub(crate) fn new() -> Writer
        ensures none { written result ≡ 0 }
        ensures count { bits_written result ≡ 0 }
    {
        Writer {
            words: [0; 4],
            next: 0,
            held: 0,
            bits: 0,
        }
    }

    // By index, as in `Reader`.
    /// One field more.
    pub(crate) fn put(&mut self, field: Field, value: u64)
        requires fits { value < 2 ^ width_of field }
        requires room { bits_written self.old + width_of field ≤ 256 }
        ensures value { written self.new ≡ written self.old * 2 ^ width_of field + value }
        ensures count { bits_written self.new ≡ bits_written self.old + width_of field }
    {
        let width = field.width();
        let bits = self.bits + width;
        if bits < 64 {
            self.held = beside(self.held, width, value);
            self.bits = bits;
        } else {
            let over = bits - 64;
            self.words[self.next] = beside(self.held, width - over, value >> over);
            self.next += 1;
            self.held = low_bits(value, over);
            self.bits = over;
        }
    }

    /// The words, once all bits are written.
    pub(crate) fn finish(self) -> [u64; 4]
        requires { bits_written self ≡ 256 }
        ensures { number_of (2 ^ 64) 0 result ≡ written self }
    {
        self.words
    }
}

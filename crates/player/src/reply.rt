//! What a line of a trace writes.

ghost use Rattle.std.specs.Prelude.{◌≡◌, ◌++◌, OnOk};
ghost use Rattle.rules.specs.Replay.{refusal_line};
ghost use Rattle.player.specs.Replies.{bytes_of};

use records::decimal;
use rules::Fault;
use std::alloc::AllocError;

/// What a line of a trace writes.
#[derive(Clone, Copy)]
pub enum Reply {
    Nothing,
    Ticket([u8; 76]),
    Refusal([u8; 11]),
}

impl Reply {
    /// The line of a refusal: E, its number in two digits, and the line of the trace in five.
    // It is public, and writes any number: so it asks for a number, and not for a fault.
    pub fn refusal(number: u8, line: usize) -> Reply
        ensures { bytes_of result ≡ refusal_line number line }
    {
        let [tens, ones] = decimal::<2>(u64::from(number));
        let [a, b, c, d, e] = decimal::<5>(line as u64);
        Reply::Refusal([b'E', b' ', tens, ones, b' ', a, b, c, d, e, b'\n'])
    }

    /// The refusal of a line, by the number of a fault.
    pub(crate) fn refused<F: Fault>(line: usize, fault: F) -> Reply
        ensures { bytes_of result ≡ refusal_line (F.number_of fault) line }
    {
        Reply::refusal(fault.number(), line)
    }

    /// Writes its bytes behind those that are written.
    // A match, inlined: each reply has a size of its own, so it is copied without looking how long it is,
    // and a line that writes nothing copies nothing.
    #[inline(always)]
    pub(crate) fn write_to(self, out: &mut Vec<u8>) -> Result<(), AllocError>
        ensures { OnOk result (out.new.items ≡ out.old.items ++ bytes_of self) }
    {
        match self {
            Reply::Nothing => Ok(()),
            Reply::Ticket(line) => out.extend_from_slice(&line),
            Reply::Refusal(line) => out.extend_from_slice(&line),
        }
    }
}

//! Reads rows of the memory from standard input, one to a line as 64 hex digits, and writes for each the ticket line of its record, or
//! what is wrong with it. It holds one line and one block of input at a time.

#![tactic(auto)]

ghost use Rattle.std.specs.Prelude.{◌≡◌};
ghost use Rattle.rows.specs.Lines.{with_byte};

mod answer;
mod parse;

use answer::reply_to;
use arrayvec::ArrayVec;
use std::io;
use std::io::{BufRead, BufReader, BufWriter, Stdin, Stdout, Write};

/// The line of input that is being read, up to its 65th byte: a line that long is no row, whatever follows.
type Line = ArrayVec<u8, 65>;

/// How many bytes of input are held at a time.
const BLOCK: usize = 4096;

/// One byte more, if there is room for it.
#[tactic(auto, using(crate::proofs::Pairs::pushed, crate::proofs::Pairs::full))]
fn push(line: &mut Line, byte: u8)
    ensures { line.new.items ≡ with_byte line.old.items byte }
{
    let _ = line.try_push(byte);
}

/// Answers the line, and begins the next one.
fn end_line(line: &mut Line, out: &mut BufWriter<Stdout>) -> io::Result<()> {
    let reply = reply_to(line.as_slice());
    line.clear();
    out.write_all(reply.as_slice())
}

/// Takes in a block of input.
fn take_block(block: &[u8], line: &mut Line, out: &mut BufWriter<Stdout>) -> io::Result<()> {
    for &byte in block {
        match byte {
            b'\n' => end_line(line, out)?,
            byte => push(line, byte),
        }
    }
    Ok(())
}

/// Answers every line of the input; a last line that is not ended counts as one.
// Block by block: `bytes` makes a call of `read` for each byte, which takes longer than all else that is done with it.
fn answer_all(mut input: BufReader<Stdin>, out: &mut BufWriter<Stdout>) -> io::Result<()> {
    let mut line = Line::new();
    for _ in 0..u64::MAX {
        let block = input.fill_buf()?;
        let size = block.len();
        if size == 0 {
            break;
        }
        take_block(block, &mut line, out)?;
        input.consume(size);
    }
    if !line.is_empty() {
        end_line(&mut line, out)?;
    }
    out.flush()
}

fn main(rt: HostRuntime) -> io::Result<()> {
    let input = BufReader::with_capacity(rt.alloc(), BLOCK, rt.stdin())?;
    let mut out = BufWriter::new(rt.alloc(), rt.stdout())?;
    answer_all(input, &mut out)
}

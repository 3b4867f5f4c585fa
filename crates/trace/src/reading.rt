//! Reads a trace line by line.

ghost use Rattle.std.specs.Prelude.{◌≡◌, ◌+◌, ◌≤◌, length, take, IfSome};
ghost use Rattle.std.specs.Iterator.{at_most};
ghost use Rattle.rules.specs.Trace.{trace_limit, lines as lines_of, next_line};
ghost use Rattle.trace.specs.Meaning.{ItemIn, ItemAt, HandsOut, standing, line_of, handed};

use crate::command::Item;
use crate::fault::TraceFault;
use crate::fields::Fields;
use crate::reader::Reader;
use crate::words::find;

/// So many bytes at most are a trace.
pub const LONGEST_TRACE: usize = 32_768;

impl<'a> Reader<'a> {
    /// Over the first 32,768 bytes at most; what follows is not looked at.
    pub fn over(bytes: &'a [u8]) -> Reader<'a>
        ensures trace { result.trace.now ≡ take trace_limit bytes.now }
        ensures standing { standing result ≡ (0, lines_of (take trace_limit bytes.now)) }
        ensures place { result.place ≡ 0 }
    {
        Reader {
            trace: &bytes[..bytes.len().min(LONGEST_TRACE)],
            place: 0,
            lines: 0,
        }
    }

    // Beside `next` below: a clause of an iterator cannot say which lines are left, and a replay needs that.
    /// The next line, if there is one.
    pub fn next_item(&mut self) -> Option<Item<'a>>
        ensures item { handed result self.new ≡ next_line (standing self.old).0 (standing self.old).1 }
        ensures few { IfSome result (λ i. i.line ≤ trace_limit) }
        ensures mark { ItemIn self.old.trace.now result }
        ensures place { ItemAt self.old.place (line_of self.old) result }
        ensures trace { self.new.trace.now ≡ self.old.trace.now }
        ensures behind { self.new.place ≡ self.old.place + length (line_of self.old) }
    {
        let start = self.place;
        let rest = &self.trace[start..];
        if rest.is_empty() {
            return None;
        }
        let asks = match find(rest, b'\n') {
            Some(size) => {
                self.place += size + 1;
                let text = &self.trace[..start + size];
                Fields { text, place: start }.command()
            }
            None => {
                self.place = self.trace.len();
                None
            }
        };
        self.lines += 1;
        let line = self.lines;
        Some(Item {
            line,
            asks: asks.ok_or(TraceFault { line }),
        })
    }
}

impl<'a> Iterator for Reader<'a> {
    type Item = Item<'a>;

    /// One item for each line, in order.
    ghost next_gives = { HandsOut };

    ghost remaining = { λ reader. at_most (length (standing reader).1) };

    fn next(&mut self) -> Option<Item<'a>> {
        self.next_item()
    }
}

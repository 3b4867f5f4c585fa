//! What the program writes for a line of its input.

ghost use Rattle.std.specs.Prelude.{◌≡◌, ◌≤◌, length};
ghost use Rattle.rows.specs.Replies.{reply_to};

use crate::parse::parse_row;
use arrayvec::ArrayVec;
use records::{Damage, Verdict, judge};

/// Up to 76 bytes of text.
pub(crate) type Reply = ArrayVec<u8, 76>;

/// A reply that is some text.
fn text_reply(text: &[u8]) -> Reply
    requires { length text.now ≤ 76 }
    ensures { result.items ≡ text.now }
{
    let mut reply = Reply::new();
    reply.try_extend_from_slice(text).unwrap();
    reply
}

/// The reply to a line: the ticket line of the record in its row, or what is wrong with it.
pub(crate) fn reply_to(line: &[u8]) -> Reply
    ensures { result.items ≡ reply_to line.now }
{
    let Some(row) = parse_row(line) else {
        return text_reply(b"not a row\n");
    };
    match judge(&row) {
        Verdict::Blank => text_reply(b"blank\n"),
        Verdict::Damaged(Damage::Check) => text_reply(b"damaged: check\n"),
        Verdict::Damaged(Damage::Fields) => text_reply(b"damaged: fields\n"),
        Verdict::Intact(found) => Reply::from(found.line()),
    }
}

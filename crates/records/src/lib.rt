//! The record of a weighing: its mark, its row of 32 bytes and its ticket line.

#![tactic(auto)]

mod bits;
mod digits;
mod fields;
mod line;
mod mark;
mod marks;
mod record;
mod row;
mod weighing;
mod weighings;
mod words;

pub use line::{decimal, line_number};
pub use mark::{Mark, NoMark};
pub use record::{Record, Tare, Weight};
pub use row::{Damage, Unlawful, Verdict, judge, number_in};
pub use rules::is_blank;
pub use weighing::Weighing;

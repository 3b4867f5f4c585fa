//! Reads a trace: text in lines, each of which asks a terminal for something.
//!
//! A `Reader` walks over the caller's bytes and hands out one `Item` for each line. It copies nothing: a mark in an item is a part of those bytes.

#![tactic(auto)]

mod command;
mod fault;
mod fields;
mod forms;
mod reader;
mod reading;
mod words;

pub use command::{Command, Item};
pub use fault::TraceFault;
pub use reader::Reader;
pub use reading::LONGEST_TRACE;
pub use rules::MediumKind;

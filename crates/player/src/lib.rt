//! Replays the lines of a trace over a terminal, and gives what each line writes.

#![tactic(auto)]

mod beginning;
mod body;
mod fault;
mod play;
mod reply;
mod run;
mod whole;

pub use beginning::{Beginning, begin};
pub use body::Player;
pub use reply::Reply;
pub use trace::LONGEST_TRACE;
pub use whole::replay;

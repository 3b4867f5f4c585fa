//! The indicator of a terminal: settings, zero, tare, the window of samples and the state, and the keys that change them.

#![tactic(auto)]

mod body;
mod entered;
mod fault;
mod keys;
mod state;
mod weighing;

pub use body::Indicator;
pub use entered::Entered;
pub use fault::{CellFault, IndicatorFault};

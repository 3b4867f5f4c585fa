//! What the programs that tour or measure a medium share: one example record, one example of settings, the lines that a tour
//! writes, and a medium that a tour visits.

#![tactic(auto)]

mod examples;
mod lines;
mod refused;
mod visit;

pub use examples::{example, settings};
pub use lines::Lines;
pub use refused::Refused;
pub use visit::{Calls, Tour, Visit, tour_both};

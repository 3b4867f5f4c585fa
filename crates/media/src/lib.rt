//! Media of rows: one interface, and two kinds over lent bytes.

#![tactic(auto)]

mod bytes;
mod cells;
mod flash;
mod medium;
mod sectors;

pub use bytes::check_bytes;
pub use cells::Cells;
pub use flash::Flash;
pub use medium::{Medium, MediumFault};
pub use sectors::Sectors;

//! Loads: tenths of an interval as the cell sends them, whole intervals, the window of samples, settings, kilograms and prices.

#![tactic(auto)]

mod checking;
mod class;
mod interval;
mod pricing;
mod readings;
mod rounding;
mod settings;
mod tenths;
mod window;

pub use checking::SettingsFault;
pub use class::Class;
pub use interval::Interval;
pub use pricing::price;
pub use settings::Settings;
pub use tenths::{Intervals, Tenths};
pub use window::Window;

#[cfg(test)]
mod tests;

//! A weighbridge terminal over its alibi memory, on any medium.

#![tactic(auto)]

mod body;
mod claim;
mod fault;
mod keys;
mod lines;
mod opening;
mod storing;

pub use body::Terminal;
pub use claim::Claim;
pub use fault::StoreFault;

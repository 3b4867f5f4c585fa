//! The alibi memory over any medium: where a record goes, where it is found again, and what a release erases.

#![tactic(auto)]

mod entry;
mod fault;
mod finding;
mod next;
mod order;
mod page;
mod pages;
mod reading;
mod releasing;
mod seen;
mod storing;

pub use entry::Entry;
pub use fault::MemoryFault;
pub use finding::{find, look_up, next_number};
pub use next::next_row;
pub use order::{check_order, newest_in_order};
pub use pages::Pages;
pub use reading::newest;
pub use releasing::{release, released_pages};
pub use storing::{append, store};

// The list of a point's dependencies, entry by entry.
#![tactic(auto)]

mod entry;
mod known;
mod read;

pub use entry::{DagPoint, Entry, Listed};
pub use known::known_entry;
pub use read::{is_listable, is_own_before, is_reason, read_entry};

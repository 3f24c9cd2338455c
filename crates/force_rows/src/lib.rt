// The rows of what the network can force (document 02, U11), over a list that reads and has no mismatch: one walk for each reason number
// that there is.
#![tactic(auto)]

mod entry;
mod kinds;
mod same;
mod walk;

pub use kinds::put_rows;

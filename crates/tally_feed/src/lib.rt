// The points that the program tally is fed, one after another: what stands in front of them, and the line that each gives.
#![tactic(auto)]

mod answers;
mod front;
mod next;

pub use answers::refused;
pub use front::begin;
pub use next::{Next, kept, next_point};

// Number 8: whether a list and the point's dependencies fit.
#![tactic(auto)]

mod entries;
mod head;
mod maps;
mod targets;
mod versions;
mod walk;

pub use walk::is_mismatch;

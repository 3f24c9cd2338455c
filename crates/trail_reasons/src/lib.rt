// All the reasons that one entry of a list gives, put as rows in the source's order, where judging asks for the last alone (document 02,
// U2).
#![tactic(auto)]

mod dependency;
mod entry;

pub use entry::{put_direct, put_indirect};

// Every rule that fired (document 02, U2): judging, and a row for each reason that it set.
#![tactic(auto)]

mod call;
mod walk;

pub use call::{Trailed, judge_with_trail};

// The reasons and verdicts of verifier.rs, under its names, and document 01's number of each.
#![tactic(auto)]

mod ill_formed;
mod invalid;
mod refusal;
mod verdict;

pub use ill_formed::{
    IllFormedReason, StructureIssue, UninitVset, VerifyError, WaveChecked, is_ill_formed,
};
pub use invalid::{InvalidDependency, InvalidReason, dag_round, has_dag_round};
pub use refusal::Refusal;
pub use verdict::Verdict;

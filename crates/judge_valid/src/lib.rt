// The rules that one dependency is checked against: what check_valid and check_indirect_links of verifier.rs ask of it.
#![tactic(auto)]

mod brief;
mod quick;
mod rows;
mod view;

pub use quick::{Quick, is_quick};
pub use rows::{
    check_carried, check_dependency, check_indirect, check_inherited, check_newer, check_path,
    check_proof, check_target, check_time, is_source,
};
pub use view::{By, DepView, LinkIds, PointView};

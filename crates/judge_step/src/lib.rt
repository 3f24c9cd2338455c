// Judging of a point by its dependencies, one entry at a time: check_valid, check_indirect_links and dependency of verifier.rs.
#![tactic(auto)]

mod step;

pub use step::{
    Gives, Judging, NOTHING, START, direct_gives, gives_nothing, indirect_gives, is_quiet,
    with_direct, with_indirect,
};

// What the network can force (document 02, U11): judging, and the rows of the reasons that some order gives.
#![tactic(auto)]

mod call;

pub use call::forced;

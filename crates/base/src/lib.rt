// Definitions and laws that every crate's own definitions are made of. There is no code here.
#![tactic(auto)]

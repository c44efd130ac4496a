// The vote of all nodes on rows, for any fault bytes.
#![tactic(auto)]

pub mod step;

// Which nodes are bad in a frame, their good counts, and how many are working.
#![tactic(auto)]

pub mod step;

// A plan as 64-bit words.
#![tactic(auto)]

pub mod step;

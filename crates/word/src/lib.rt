// Little-endian words in byte slices.
#![tactic(auto)]

pub mod step;

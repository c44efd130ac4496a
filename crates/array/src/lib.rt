// The vocabulary of definitions over indices is in specs/; the code here is big-endian words in byte slices.
#![tactic(auto)]

pub mod step;

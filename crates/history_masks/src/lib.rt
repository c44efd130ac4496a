// A small press and its masks: which nodes were bad in the last frames, and which masks leave more than half of them.
#![tactic(auto)]

pub mod step;

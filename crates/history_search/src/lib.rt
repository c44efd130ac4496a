// The histories of a small press, counted and written.
#![tactic(auto)]

pub mod step;

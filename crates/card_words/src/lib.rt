// A card as words and bytes.
#![tactic(auto)]

pub mod step;

// Refusals, memories and system records as numbers and words.
#![tactic(auto)]

pub mod step;

// Writing the text of a plan.
#![tactic(auto)]

pub mod step;

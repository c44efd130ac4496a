// The plane on rows: what the nodes put out for each actuator, and what is handed on.
#![tactic(auto)]

pub mod step;

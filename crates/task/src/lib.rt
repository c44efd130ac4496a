// What a task gives, and the task run on cells.
#![tactic(auto)]

pub mod step;

// The walk through the frames from all first frames together, which finds the recovery period.
#![tactic(auto)]

pub mod step;

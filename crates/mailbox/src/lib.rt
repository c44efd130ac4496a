// What one node sends, and its vote on the bins of its mailbox.
#![tactic(auto)]

pub mod step;

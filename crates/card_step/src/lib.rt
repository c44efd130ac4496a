// What a delivery and a tick make of a card, which lends its state and its bins.
#![tactic(auto)]

pub mod step;

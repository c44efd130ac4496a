// The bins of a card, lent: filled, emptied, and made a mailbox.
#![tactic(auto)]

pub mod step;

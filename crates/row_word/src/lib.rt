// One word of all nodes, a counter or a cell: what the good ones sent, what a receiver hears, how many agree.
#![tactic(auto)]

pub mod step;

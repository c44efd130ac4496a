// What the digits of a column show: the definitions, and few digits. `numeral_read` takes any number of them.
#![tactic(auto)]

pub mod step;

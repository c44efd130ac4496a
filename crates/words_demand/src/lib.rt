// Demand 3 of the exported calls on a system, as a definition and its proof over the words that they hand from one to the next.
#![tactic(auto)]

// Demand 3 on computed runs, which show that it is not empty: laws alone.
#![tactic(auto)]

// Document 01's short table is stated in specs/ and proved in proofs/: there is no code here.
#![tactic(auto)]

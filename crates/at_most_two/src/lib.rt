// A press of one or two controllers, as definitions and laws over those of `system`.
#![tactic(auto)]

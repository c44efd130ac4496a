// Four ticks of a card are its node's frame: definitions and laws over those of `card_step` and `system`, and no code.
#![tactic(auto)]

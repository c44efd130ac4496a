// The page that a card shows, and what a host writes to it: everything of a card but its bins.
#![tactic(auto)]

ghost use Rattle.std.specs.Prelude.{◌≡◌, ◌+◌, ◌%◌};
ghost use Rattle.card_page.specs.Page.{phase_number};

use memory::Memory;

pub mod step;

// The phases of a frame, in their order.
#[derive(Clone, Copy, PartialEq, Eq)]
pub enum Phase {
    Compute,
    Broadcast,
    Vote,
    Sync,
}

impl Phase {
    // A byte counts modulo 4.
    pub fn of(byte: u8) -> Phase
        ensures { phase_number result ≡ byte % 4 }
    {
        match byte % 4 {
            0 => Phase::Compute,
            1 => Phase::Broadcast,
            2 => Phase::Vote,
            _ => Phase::Sync,
        }
    }

    pub fn number(self) -> u8
        ensures { result ≡ phase_number self }
    {
        self as u8
    }

    // From sync back to compute.
    pub fn next(self) -> Phase
        ensures { phase_number result ≡ (phase_number self + 1) % 4 }
    {
        match self {
            Phase::Compute => Phase::Broadcast,
            Phase::Broadcast => Phase::Vote,
            Phase::Vote => Phase::Sync,
            Phase::Sync => Phase::Compute,
        }
    }
}

// A card but for its bins. A phase counts modulo 4; of the flags bits 0 (frame timer due) and 1 (bins full) count, and of the mask the same.
#[derive(Clone, Copy)]
pub struct CardState {
    pub memory: Memory,
    pub phase: u8,
    pub flags: u8,
    pub mask: u8,
}

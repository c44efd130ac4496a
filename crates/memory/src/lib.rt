// One node's memory.
#![tactic(auto)]

ghost use Rattle.std.specs.Prelude.{◌≡◌};
ghost use Rattle.memory.specs.Node.{zero_memory};

use plan::Plan;

pub mod step;

// Any memory is legal input; what lies past the plan's cells is neither read nor changed.
#[derive(Clone, Copy)]
pub struct Memory {
    pub counter: u16,
    pub cells: [u64; Plan::CELLS],
}

// What a vote leaves: the memory, and the vote's agreement.
#[derive(Clone, Copy)]
pub struct Vote {
    pub memory: Memory,
    pub agreement: usize,
}

pub fn zero_memory() -> Memory
    ensures { result ≡ zero_memory }
{
    Memory {
        counter: 0,
        cells: [0; Plan::CELLS],
    }
}

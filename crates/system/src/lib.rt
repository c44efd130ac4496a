// The whole system: its record and its constructor. The definitions of a frame under faults, and demand 3 over them, are in specs/ and proofs/.
#![tactic(auto)]

ghost use Rattle.std.specs.Prelude.{◌≡◌};
ghost use Rattle.system.specs.System.{system_power_on_answer};

use answer::Refusal;
use memory::Memory;
use plan::Plan;

pub mod step;

// What is seen of the system from outside: the values that the plane last handed on.
#[derive(Clone, Copy)]
pub struct Seen {
    pub handed: [u64; System::ACTUATORS],
}

// What lies past the plan's nodes and actuators is neither read nor changed.
#[derive(Clone, Copy)]
pub struct System {
    pub memories: [Memory; System::NODES],
    pub good: [u16; System::NODES],
    pub seen: Seen,
}

impl System {
    pub const NODES: usize = Plan::NODES;

    pub const FRAMES: usize = Plan::FRAMES;

    pub const CELLS: usize = Plan::CELLS;

    pub const TASKS: usize = Plan::TASKS;

    pub const ACTUATORS: usize = Plan::ACTUATORS;

    pub fn power_on(plan: Plan) -> Result<System, Refusal>
        ensures { result ≡ system_power_on_answer plan }
    {
        let period = plan_period::recovery_period(plan)?;
        Ok(System::started(plan, period))
    }
}

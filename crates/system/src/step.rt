// The record at power-on, for callers that know the plan to be accepted, and its period.
ghost use Rattle.std.specs.Prelude.{◌≡◌, true, ℕ, ◌≤◌, ◌<◌, get_or, replicate};
ghost use Rattle.plan.specs.Accepted.{accepted};
ghost use Rattle.plan.specs.Known.{period as period_of};
ghost use Rattle.array.specs.Index.{fill};
ghost use Rattle.plan.specs.Limits.{most_cells, most_actuators};
ghost use Rattle.system.specs.System.{zero_system, power_on};

use super::{Seen, System};
use plan::Plan;

impl Seen {
    // What the plane remembers at power-on, by a plan's initial patterns and the cells of its actuators.
    fn started<'a>(
        initial: &'a [u64; Plan::CELLS],
        table: &'a [usize; Plan::ACTUATORS],
        actuators: usize,
    ) -> Seen
        requires { (actuators ≤ most_actuators) × ((a : ℕ) → a < actuators → get_or table.now a 0 < most_cells) }
        ensures { result.handed ≡ fill (λ a. get_or initial.now (get_or table.now a 0) 0) actuators (replicate most_actuators 0) }
    {
        let mut handed = [0u64; System::ACTUATORS];
        for a in 0..actuators {
            let cell = table[a];
            handed[a] = initial[cell];
        }
        Seen { handed }
    }
}

impl System {
    // The all-zero record.
    pub fn zero() -> System
        ensures { result ≡ zero_system }
    {
        let memory = memory::zero_memory();
        System {
            memories: [memory; System::NODES],
            good: [0; System::NODES],
            seen: Seen {
                handed: [0; System::ACTUATORS],
            },
        }
    }

    // The record of an accepted plan at power-on, whose period is given.
    pub fn started(plan: Plan, period: usize) -> System
        requires { (accepted plan ≡ true) × (period ≡ period_of plan) }
        ensures { result ≡ power_on plan }
    {
        let nodes = plan.nodes;
        let memory = memory::step::power_on(&plan);
        let full = period as u16;
        let mut system = System::zero();
        system.seen = Seen::started(&plan.initial, &plan.actuator_cell, plan.actuators);
        for i in 0..nodes {
            system.memories[i] = memory;
            system.good[i] = full;
        }
        system
    }
}

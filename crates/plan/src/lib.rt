// The plan record, with the definitions of what is accepted and of the recovery period. `plan_form` and `plan_period` test a record.
#![tactic(auto)]

ghost use Rattle.std.specs.Prelude.{◌≡◌};
ghost use Rattle.plan.specs.Sizes.{sizes_with};

use pattern::WindLaw;

pub mod step;

// A task is one of seven kinds with the constants of its own kind. The numbers are cells, but for Take's sensor.
#[derive(Clone, Copy)]
pub enum Op {
    Take(usize),
    Sum(usize, usize),
    Diff(usize, usize),
    Scale(usize, f64),
    Limit(usize, f64, f64),
    Wind(usize, WindLaw),
    Cam(usize),
}

// A task line.
#[derive(Clone, Copy)]
pub struct Task {
    pub frame: usize,
    pub target: usize,
    pub op: Op,
}

#[derive(Clone, Copy)]
pub struct Plan {
    pub nodes: usize,
    pub frames: usize,
    pub cells: usize,
    pub sensors: usize,
    pub actuators: usize,
    pub initial: [u64; Plan::CELLS],
    pub task_count: usize,
    pub tasks: [Task; Plan::TASKS],
    // Laid out as `step::vote_place` says.
    pub voted: [bool; Plan::VOTES],
    pub actuator_cell: [usize; Plan::ACTUATORS],
}

impl Plan {
    pub const LEAST_NODES: usize = 1;

    pub const NODES: usize = 7;

    pub const FRAMES: usize = 16;

    pub const CELLS: usize = 32;

    pub const SENSORS: usize = 16;

    pub const ACTUATORS: usize = 8;

    pub const TASKS: usize = 64;

    pub const VOTES: usize = Plan::FRAMES * Plan::CELLS;
}

// The numbers of a plan, and its recovery period.
#[derive(Clone, Copy)]
pub struct Sizes {
    pub nodes: usize,
    pub frames: usize,
    pub cells: usize,
    pub sensors: usize,
    pub actuators: usize,
    pub period: usize,
}

pub fn sizes_with(p: Plan, period: usize) -> Sizes
    ensures { result ≡ sizes_with p period }
{
    Sizes {
        nodes: p.nodes,
        frames: p.frames,
        cells: p.cells,
        sensors: p.sensors,
        actuators: p.actuators,
        period,
    }
}

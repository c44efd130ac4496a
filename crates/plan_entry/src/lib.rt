// The tests of a record's numbers, and of one task.
#![tactic(auto)]

ghost use Rattle.std.specs.Prelude.{◌≡◌, cond, ◌&&◌, leb};
ghost use Rattle.plan.specs.Accepted.{header_ok, op_ok, task_ok, is_zero_take, is_unused};

use plan::{Op, Plan, Task};

pub fn header_ok(
    nodes: usize,
    frames: usize,
    cells: usize,
    sensors: usize,
    actuators: usize,
    tasks: usize,
) -> bool
    ensures { result ≡ header_ok nodes frames cells sensors actuators tasks }
{
    (Plan::LEAST_NODES <= nodes)
        & (nodes <= Plan::NODES)
        & ((1 <= frames) & (frames <= Plan::FRAMES))
        & ((1 <= cells) & (cells <= Plan::CELLS))
        & ((1 <= sensors) & (sensors <= Plan::SENSORS))
        & ((1 <= actuators) & (actuators <= Plan::ACTUATORS))
        & (tasks <= Plan::TASKS)
}

fn op_ok(cells: usize, sensors: usize, target: usize, op: Op) -> bool
    ensures { result ≡ op_ok cells sensors target op }
{
    match op {
        Op::Take(s) => s < sensors,
        Op::Sum(a, b) => (a < cells) & (b < cells),
        Op::Diff(a, b) => (a < cells) & (b < cells),
        Op::Scale(a, factor) => (a < cells) & pattern::is_finite(factor),
        Op::Limit(a, low, high) => {
            (a < cells) & (pattern::is_finite(low) & pattern::is_finite(high) & (low <= high))
        }
        Op::Wind(a, law) => (a < cells)
            & (target < cells)
            & (pattern::is_finite(law.rate) & pattern::is_finite_unsigned(law.cap)),
        Op::Cam(a) => a < cells,
    }
}

fn is_zero_take(op: Op) -> bool
    ensures { result ≡ is_zero_take op }
{
    match op {
        Op::Take(sensor) => sensor == 0,
        _ => false,
    }
}

pub fn task_ok(frames: usize, cells: usize, sensors: usize, t: Task) -> bool
    ensures { result ≡ task_ok frames cells sensors t }
{
    let op = t.op;
    let target = t.target;
    if cells <= target {
        return false;
    }
    (t.frame < frames) & op_ok(cells, sensors, target, op)
}

fn is_unused(t: Task) -> bool
    ensures { result ≡ is_unused t }
{
    let op = t.op;
    (t.frame == 0) & (t.target == 0) & is_zero_take(op)
}

// An entry of the tasks: one of the plan's, after a task of the frame `last`, or an unused one.
pub fn entry_ok(
    used: bool,
    last: usize,
    frames: usize,
    cells: usize,
    sensors: usize,
    t: Task,
) -> bool
    ensures { result ≡ cond used (task_ok frames cells sensors t && leb last t.frame) (is_unused t) }
{
    if used {
        return task_ok(frames, cells, sensors, t) & (last <= t.frame);
    }
    is_unused(t)
}

// The steps of a node, for callers that know the plan to be accepted and the lengths to be right.
ghost use Rattle.std.specs.Prelude.{◌≡◌, true, ℕ, ◌+◌, ◌-◌, ◌*◌, ◌%◌, ◌<◌, ◌≤◌, length, get_or};
ghost use Rattle.array.specs.Index.{fill};
ghost use Rattle.plan.specs.Limits.{most_nodes, most_cells, most_actuators};
ghost use Rattle.plan.specs.Accepted.{accepted};
ghost use Rattle.memory.specs.Size.{cell_at, bin_bytes};
ghost use Rattle.memory.specs.Node.{powered_on, computed, setpoint};

use super::Memory;
use plan::Plan;

pub fn power_on(plan: &Plan) -> Memory
    requires { accepted plan.now ≡ true }
    ensures { result ≡ powered_on plan.now }
{
    let cells = plan.initial;
    Memory { counter: 0, cells }
}

// The tasks stand by frame, so the first of a later one ends the scan.
pub fn compute(plan: &Plan, memory: Memory, sensors: &[u64]) -> Memory
    requires { (accepted plan.now ≡ true) × (length sensors.now ≡ plan.now.sensors) }
    ensures { result ≡ computed plan.now sensors.now memory }
{
    let frames = plan.frames;
    let count = plan.task_count;
    let counter = memory.counter as usize;
    let g = counter % frames;
    let cams = cam::table();
    let mut cells = memory.cells;
    for k in 0..count {
        let frame = plan.tasks[k].frame;
        if g < frame {
            break;
        }
        if frame == g {
            let t = plan.tasks[k];
            task::step::run_task(&mut cells, t, sensors, &cams);
        }
    }
    let next = ((g + 1) % frames) as u16;
    Memory {
        counter: next,
        cells,
    }
}

// The bytes of a counter and of a pattern, in messages, bins and fault bytes.
pub const COUNTER: usize = 2;

pub const PATTERN: usize = 8;

// Where a cell stands in a message.
pub fn cell_at(c: usize) -> usize
    requires { c ≤ most_cells }
    ensures { result ≡ cell_at c }
{
    COUNTER + PATTERN * c
}

pub fn message_size(cells: usize) -> usize
    requires { cells ≤ most_cells }
    ensures { result ≡ cell_at cells }
{
    cell_at(cells)
}

// A bin, and where bin j starts in a mailbox.
pub fn bin_size(cells: usize) -> usize
    requires { cells ≤ most_cells }
    ensures { result ≡ bin_bytes cells }
{
    message_size(cells)
}

pub fn bin_at(j: usize, cells: usize) -> usize
    requires { (j ≤ most_nodes) × (cells ≤ most_cells) }
    ensures { result ≡ j * bin_bytes cells }
{
    j * bin_size(cells)
}

// The frame before a counter.
pub fn frame_before(counter: u16, frames: usize) -> usize
    requires { (0 < frames) × (frames ≤ 16) }
    ensures { (result ≡ (counter + frames - 1) % frames) × (result < frames) }
{
    (counter as usize + frames - 1) % frames
}

// The setpoints of a memory, of as many actuators as there are places. Of the plan it asks that those actuators have cells.
pub fn setpoints(plan: &Plan, memory: &Memory, out: &mut [u64])
    requires { (length out.old ≤ most_actuators) × ((i : ℕ) → i < length out.old → get_or plan.now.actuator_cell i 0 < most_cells) }
    ensures { out.new ≡ fill (setpoint plan.now memory.now) (length out.old) out.old }
{
    for i in 0..out.len() {
        let cell = plan.actuator_cell[i];
        out[i] = memory.cells[cell];
    }
}

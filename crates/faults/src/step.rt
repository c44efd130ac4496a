// Places in the fault bytes, by the numbers of a plan, and a buffer of fault bytes whose parts each hold one byte.
ghost use Rattle.std.specs.Prelude.{◌≡◌, cond, ◌<◌, ◌≤◌, length, get_or, replicate};
ghost use Rattle.array.specs.Index.{fill as filled_with};
ghost use Rattle.array.specs.Bit.{bit};
ghost use Rattle.plan.specs.Limits.{most_nodes};
ghost use Rattle.system.specs.Fault.{fault_size, faults_size, fault_at, fault_message_at, fault_setpoint_at};
ghost use Rattle.faults.specs.Code.{Small, Held};

use plan::{Plan, Sizes};
use system::System;

// The longest message, and the longest fault bytes.
const MESSAGE: usize = memory::step::COUNTER + memory::step::PATTERN * System::CELLS;

pub const MOST: usize = System::NODES
    * (MESSAGE + System::NODES * MESSAGE + memory::step::PATTERN * Plan::ACTUATORS);

// One node's part.
pub fn part_size(s: Sizes) -> usize
    requires { Small s }
    ensures { result ≡ fault_size s }
{
    let memory = memory::step::message_size(s.cells);
    memory + s.nodes * memory::step::bin_size(s.cells) + memory::step::PATTERN * s.actuators
}

// All of them.
pub fn size(s: Sizes) -> usize
    requires { Small s }
    ensures { result ≡ faults_size s }
{
    s.nodes * part_size(s)
}

// Where a node's part starts.
pub fn part_at(s: Sizes, i: usize) -> usize
    requires { Small s × (i ≤ most_nodes) }
    ensures { result ≡ fault_at s i }
{
    i * part_size(s)
}

// Where the bin starts that bad node `sender` leaves `receiver`.
pub fn message_at(s: Sizes, sender: usize, receiver: usize) -> usize
    requires { Small s × (sender < most_nodes) × (receiver < most_nodes) }
    ensures { result ≡ fault_message_at s sender receiver }
{
    part_at(s, sender)
        + memory::step::message_size(s.cells)
        + memory::step::bin_at(receiver, s.cells)
}

// Where the pattern stands that bad node i puts out for an actuator.
pub fn setpoint_at(s: Sizes, i: usize, a: usize) -> usize
    requires { Small s × (i < most_nodes) × (a < s.actuators) }
    ensures { result ≡ fault_setpoint_at s i a }
{
    part_at(s, i)
        + memory::step::message_size(s.cells)
        + memory::step::bin_at(s.nodes, s.cells)
        + memory::step::PATTERN * a
}

// The parts of the bad nodes hold `fill` then; `held` says what each part holds, so that a part that holds it already is not touched.
pub fn hold(s: Sizes, mask: u64, fill: u64, held: &mut [u8; System::NODES], faults: &mut [u8])
    requires { Small s × (fill ≤ 255) × (length held.old ≡ most_nodes) × (length faults.old ≡ faults_size s) × Held s held.old faults.old }
    ensures { (held.new ≡ filled_with (λ j. cond (bit mask j) fill (get_or held.old j 0)) s.nodes held.old) × (length faults.new ≡ faults_size s) × Held s held.new faults.new }
{
    if mask == 0 {
        return;
    }
    let x = fill as u8;
    let nodes = s.nodes;
    let size = part_size(s);
    for j in 0..nodes {
        if counts::step::is_bad(mask, j) & (held[j] != x) {
            let at = j * size;
            faults[at..at + size].fill(x);
            held[j] = x;
        }
    }
}

// The bins of a card. Each step is lent them, and requires that they have the bytes of so many bins.
ghost use Rattle.std.specs.Prelude.{◌≡◌, ◌||◌, ◌+◌, ◌*◌, ◌<◌, ◌≤◌, eqb, length, replicate};
ghost use Rattle.array.specs.Index.{all_below};
ghost use Rattle.array.specs.Code.{placed};
ghost use Rattle.plan.specs.Limits.{most_nodes, most_frames, most_cells};
ghost use Rattle.memory.specs.Size.{cell_at, bin_bytes};
ghost use Rattle.memory.specs.Node.{voted as voted_of};
ghost use Rattle.card_bins.specs.Bins.{slot_size, slot_at, is_filled, with_bin, emptied, last_empty, heard_in, mailbox_in};

use memory::Memory;
use plan::Plan;

// The bytes of a mark, and of the largest slot: a mark and a message.
pub const MARK: usize = 1;

pub const SLOT: usize = MARK + memory::step::COUNTER + memory::step::PATTERN * Plan::CELLS;

const FILLED: u8 = 1;

fn slot_at(j: usize, cells: usize) -> usize
    requires { (j ≤ most_nodes) × (cells ≤ most_cells) }
    ensures { result ≡ slot_at cells j }
{
    j * (MARK + memory::step::message_size(cells))
}

fn is_filled(bins: &[u8], cells: usize, j: usize) -> bool
    requires { (j < most_nodes) × (cells ≤ most_cells) × (slot_at cells j < length bins.now) }
    ensures { result ≡ is_filled cells bins.now j }
{
    bins[slot_at(j, cells)] == FILLED
}

// Every bin but one is filled.
fn others_filled(bins: &[u8], nodes: usize, cells: usize, number: usize) -> bool
    requires { (nodes ≤ most_nodes) × (cells ≤ most_cells) × (nodes * slot_size cells ≤ length bins.now) }
    ensures { result ≡ all_below (λ i. eqb i number || is_filled cells bins.now i) nodes }
{
    for j in 0..nodes {
        if !((j == number) | is_filled(bins, cells, j)) {
            return false;
        }
    }
    true
}

// Bin `number` is the last empty one.
pub fn is_last_empty(bins: &[u8], nodes: usize, cells: usize, number: usize) -> bool
    requires { (nodes ≤ most_nodes) × (cells ≤ most_cells) × (number < nodes) × (nodes * slot_size cells ≤ length bins.now) }
    ensures { result ≡ last_empty cells nodes bins.now number }
{
    if is_filled(bins, cells, number) {
        return false;
    }
    others_filled(bins, nodes, cells, number)
}

pub fn fill_bin(bins: &mut [u8], cells: usize, number: usize, message: &[u8])
    requires { (number < most_nodes) × (cells ≤ most_cells) × (slot_at cells number + slot_size cells ≤ length bins.old) × (length message.now ≡ cell_at cells) }
    ensures { bins.new ≡ with_bin cells number message.now bins.old }
{
    let at = slot_at(number, cells);
    let first = at + MARK;
    let end = first + memory::step::message_size(cells);
    bins[at] = FILLED;
    bins[first..end].copy_from_slice(message);
}

pub fn empty(bins: &mut [u8], nodes: usize, cells: usize)
    requires { (nodes ≤ most_nodes) × (cells ≤ most_cells) × (nodes * slot_size cells ≤ length bins.old) }
    ensures { bins.new ≡ emptied cells nodes bins.old }
{
    for j in 0..nodes {
        bins[slot_at(j, cells)] = 0;
    }
}

// Bin j to its place in a mailbox.
fn put_heard(bins: &[u8], cells: usize, j: usize, out: &mut [u8])
    requires { (j < most_nodes) × (cells ≤ most_cells) × (slot_at cells j + slot_size cells ≤ length bins.now) × (j * bin_bytes cells + bin_bytes cells ≤ length out.old) }
    ensures { out.new ≡ placed out.old (j * bin_bytes cells) (heard_in cells bins.now j) }
{
    let size = memory::step::message_size(cells);
    let at = memory::step::bin_at(j, cells);
    let to = at + size;
    if is_filled(bins, cells, j) {
        let first = slot_at(j, cells) + MARK;
        let end = first + size;
        out[at..to].copy_from_slice(&bins[first..end]);
    } else {
        out[at..to].fill(0);
    }
}

// The mailbox of the bins.
fn mailbox(bins: &[u8], nodes: usize, cells: usize, out: &mut [u8])
    requires { (nodes ≤ most_nodes) × (cells ≤ most_cells) × (nodes * slot_size cells ≤ length bins.now) × (nodes * bin_bytes cells ≤ length out.old) }
    ensures { out.new ≡ placed out.old 0 (mailbox_in cells nodes bins.now) }
{
    for j in 0..nodes {
        put_heard(bins, cells, j, out);
    }
}

// The most bytes of a mailbox.
const MAILBOX: usize = Plan::NODES * (SLOT - MARK);

// A vote on the bins.
pub fn vote(plan: &Plan, memory: Memory, bins: &[u8]) -> Memory
    requires { (plan.now.nodes ≤ most_nodes) × (0 < plan.now.frames) × (plan.now.frames ≤ most_frames) × (plan.now.cells ≤ most_cells) × (plan.now.nodes * slot_size plan.now.cells ≤ length bins.now) }
    ensures { result ≡ voted_of plan.now memory (mailbox_in plan.now.cells plan.now.nodes bins.now) }
{
    let mut all = [0u8; MAILBOX];
    mailbox(bins, plan.nodes, plan.cells, &mut all);
    let size = memory::step::bin_at(plan.nodes, plan.cells);
    let vote = mailbox::step::vote(plan, memory, &all[0..size]);
    vote.memory
}

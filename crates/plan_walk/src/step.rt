// All first frames are advanced together: in the word of a cell, bit g says whether the cell is known from first frame g.
ghost use Rattle.std.specs.Prelude.{◌≡◌, cond, ℕ, ◌+◌, ◌-◌, ◌^◌, ◌<◌, ◌≤◌, get_or};
ghost use Rattle.array.specs.Index.{all_below};
ghost use Rattle.array.specs.Bit.{bit};
ghost use Rattle.plan.specs.Limits.{most_frames, most_cells};
ghost use Rattle.plan_walk.specs.Code.{read_word, after_task, with_votes, longer, Unset, Closed};

use array::step::entry_or;
use plan::{Op, Plan, Task};

// The first frames 0, 1, .. are begun in this order, one in each frame, and advanced frame by frame.
#[derive(Clone, Copy)]
pub struct Walk {
    // Up to it, everything is known from each first frame after longest + 1 frames; from it, not after longest.
    pub low: usize,
    pub longest: usize,
    // How many frames were run, and which is next.
    pub time: usize,
    pub frame: usize,
}

// The word of the first n first frames.
pub fn ones(n: usize) -> u16
    requires { n ≤ most_frames }
    ensures { result ≡ 2 ^ n - 1 }
{
    ((1u32 << n) - 1) as u16
}

// The first frames, of those begun, from which all cells that a task reads are known.
fn read_word(op: Op, target: usize, begun: u16, words: &[u16]) -> u16
    ensures { result ≡ read_word op target begun words.now }
{
    match op {
        Op::Take(_) => begun,
        Op::Sum(a, b) => entry_or(words, a, 0) & (entry_or(words, b, 0) & begun),
        Op::Diff(a, b) => entry_or(words, a, 0) & (entry_or(words, b, 0) & begun),
        Op::Scale(a, _) => entry_or(words, a, 0) & begun,
        Op::Limit(a, _, _) => entry_or(words, a, 0) & begun,
        Op::Wind(a, _) => entry_or(words, a, 0) & (entry_or(words, target, 0) & begun),
        Op::Cam(a) => entry_or(words, a, 0) & begun,
    }
}

// A task's target becomes known from the first frames from which all cells that it reads are.
pub fn put_known(words: &mut [u16; Plan::CELLS], task: Task, begun: u16)
    requires { task.target < most_cells }
    ensures { words.new ≡ after_task begun words.old task }
{
    let op = task.op;
    let target = task.target;
    let known = read_word(op, target, begun, words);
    words[target] = known;
}

fn if_voted(voted: bool, begun: u16) -> u16
    ensures { result ≡ cond voted begun 0 }
{
    if voted { begun } else { 0 }
}

// The cells below `cells` that are voted in the frame become known from each first frame that is begun.
fn add_votes(
    words: &mut [u16; Plan::CELLS],
    voted: &[bool; Plan::VOTES],
    frame: usize,
    cells: usize,
    begun: u16,
)
    requires { (frame < most_frames) × (cells ≤ most_cells) }
    ensures { words.new ≡ with_votes voted.now frame cells begun words.old }
{
    for c in 0..cells {
        words[c] = words[c] | if_voted(voted[plan::step::vote_place(frame, c)], begun);
    }
}

// The first frames from which all cells below `cells` are known.
fn known_by_all(words: &[u16; Plan::CELLS], cells: usize) -> u16
    requires { cells ≤ most_cells }
    ensures { (g : ℕ) → g < most_frames → bit result g ≡ all_below (λ c. bit (get_or words.now c 0) g) cells }
{
    let mut all: u16 = 65535;
    for c in 0..cells {
        all = all & words[c];
    }
    all
}

// The least number from `low` on, up to `high`, whose bit is not set.
fn first_unset(w: u16, low: usize, high: usize) -> usize
    requires { (low ≤ high) × (high ≤ most_frames) }
    ensures { Unset w low high result }
{
    for g in low..high {
        if (w >> g) % 2 == 0 {
            return g;
        }
    }
    high
}

// From first frame low, below `frames`, something is not known after ran frames in all.
fn still_longer(longest: usize, low: usize, frames: usize, ran: usize) -> usize
    ensures { result ≡ longer longest low frames ran }
{
    if low < frames {
        if low < ran {
            if longest < ran - low {
                return ran - low;
            }
        }
    }
    longest
}

fn after(frame: usize, frames: usize) -> usize
    requires { frame < frames }
    ensures { (result < frames) × ((frame + 1 < frames → result ≡ frame + 1) × (frames ≤ frame + 1 → result ≡ 0)) }
{
    (frame + 1) % frames
}

// The votes of the frame, and the frame is run.
pub fn closed(
    w: Walk,
    words: &mut [u16; Plan::CELLS],
    voted: &[bool; Plan::VOTES],
    frames: usize,
    cells: usize,
) -> Walk
    requires { (w.frame < frames) × (frames ≤ most_frames) × (cells ≤ most_cells) × (w.low ≤ frames) × (w.time < 1024) }
    ensures { Closed voted.now frames cells words.old w words.new result }
{
    let frame = w.frame;
    let ran = w.time + 1;
    let begun = ones(ran.min(frames));
    add_votes(words, voted, frame, cells, begun);
    let whole = known_by_all(words, cells);
    let low = first_unset(whole, w.low, frames);
    Walk {
        low,
        longest: still_longer(w.longest, low, frames, ran),
        time: ran,
        frame: after(frame, frames),
    }
}

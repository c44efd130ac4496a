// The message of one node and its vote, for callers that know the plan to be within its limits and the lengths to be right.
ghost use Rattle.std.specs.Prelude.{◌≡◌, true, cond, ℕ, ◌+◌, ◌*◌, ◌<◌, ◌≤◌, length, get_or, Some};
ghost use Rattle.array.specs.Bit.{bit};
ghost use Rattle.plan.specs.Limits.{most_nodes, most_frames, most_cells};
ghost use Rattle.ballot.specs.Code.{Packs};
ghost use Rattle.memory.specs.Size.{cell_at, message_size, bin_bytes, mailbox_size};
ghost use Rattle.memory.specs.Node.{message_of, voted as voted_of, vote_agreement};
ghost use Rattle.mailbox.specs.Code.{word_from, heard_of};

use ballot::Words;
use memory::{Memory, Vote};
use plan::Plan;

// ---- the message

fn sent(voted: bool, cell: u64) -> u64
    ensures { result ≡ cond voted cell 0 }
{
    if voted { cell } else { 0 }
}

pub fn message(plan: &Plan, memory: &Memory, out: &mut [u8])
    requires { (0 < plan.now.frames) × (plan.now.frames ≤ most_frames) × (plan.now.cells ≤ most_cells) × (length out.old ≡ message_size plan.now) }
    ensures { out.new ≡ message_of plan.now memory.now }
{
    let counter = memory.counter;
    let g = memory::step::frame_before(counter, plan.frames);
    array::step::write_be2(out, 0, counter);
    for c in 0..plan.cells {
        let x = sent(plan::step::is_voted(&plan.voted, g, c), memory.cells[c]);
        array::step::write_be8(out, memory::step::cell_at(c), x);
    }
}

// ---- bins

// What the bin that starts at a place says of a word.
fn bin_word(bytes: &[u8], at: usize, w: usize) -> u64
    requires { (w ≤ most_cells) × (at + cell_at w ≤ length bytes.now) }
    ensures { word_from bytes.now w at ≡ Some result }
{
    if w == 0 {
        return array::step::read_be2(bytes, at) as u64;
    }
    array::step::read_be8(bytes, at + memory::step::cell_at(w - 1))
}

// What one receiver hears of a word: of a node whose bit of the mask is set what its bin says, of another the word that is handed in. The first bin stands at `at`, the next `apart`
// bytes further on.
pub fn heard(
    bytes: &[u8],
    at: usize,
    apart: usize,
    mask: u64,
    nodes: usize,
    w: usize,
    words: &[u64; Plan::NODES],
) -> Words
    requires { (nodes ≤ most_nodes) × (w ≤ most_cells) × (at < 65536) × (apart < 65536) × ((j : ℕ) → j < nodes → bit mask j ≡ true → at + j * apart + cell_at w ≤ length bytes.now) }
    ensures { Packs (heard_of mask (λ j. word_from bytes.now w (at + j * apart)) (λ j. get_or words.now j 0)) nodes result.words result.count }
{
    let mut all = [0u64; Plan::NODES];
    for j in 0..nodes {
        if array::step::is_set(mask, j) {
            all[j] = bin_word(bytes, at + j * apart, w);
        } else {
            all[j] = words[j];
        }
    }
    Words {
        words: all,
        count: nodes,
    }
}

// Every node's bit.
const ALL: u64 = 127;

// What the bins of a mailbox say of a word.
fn words_in(mailbox: &[u8], nodes: usize, cells: usize, w: usize) -> Words
    requires { (nodes ≤ most_nodes) × (cells ≤ most_cells) × (w ≤ cells) × (nodes * bin_bytes cells ≤ length mailbox.now) }
    ensures { Packs (λ j. word_from mailbox.now w (j * bin_bytes cells)) nodes result.words result.count }
{
    let none = [0u64; Plan::NODES];
    heard(
        mailbox,
        0,
        memory::step::bin_size(cells),
        ALL,
        nodes,
        w,
        &none,
    )
}

// ---- the vote

pub fn vote(plan: &Plan, memory: Memory, mailbox: &[u8]) -> Vote
    requires { (plan.now.nodes ≤ most_nodes) × (0 < plan.now.frames) × (plan.now.frames ≤ most_frames) × (plan.now.cells ≤ most_cells) × (length mailbox.now ≡ mailbox_size plan.now) }
    ensures { (result.memory ≡ voted_of plan.now memory mailbox.now) × (result.agreement ≡ vote_agreement plan.now memory mailbox.now) }
{
    let nodes = plan.nodes;
    let frames = plan.frames;
    let width = plan.cells;
    let bins = words_in(mailbox, nodes, width, 0);
    let decided = ballot::step::majority(&bins.words, bins.count, nodes);
    let counter = ballot::step::or_own(frames, memory.counter, decided);
    let mut agreement = ballot::step::agreement(&bins.words, bins.count, decided);
    let frame = memory::step::frame_before(counter, frames);
    let mut cells = memory.cells;
    for c in 0..width {
        if plan::step::is_voted(&plan.voted, frame, c) {
            let values = words_in(mailbox, nodes, width, c + 1);
            let v = ballot::step::majority(&values.words, values.count, nodes);
            cells[c] = v.unwrap_or(cells[c]);
            agreement = agreement.min(ballot::step::agreement(&values.words, values.count, v));
        }
    }
    let after = Memory { counter, cells };
    Vote {
        memory: after,
        agreement,
    }
}

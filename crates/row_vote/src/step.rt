// The vote of all nodes on rows: the counters first, then cell by cell.
ghost use Rattle.std.specs.Prelude.{◌≡◌, true, cond, ℕ, suc, ◌+◌, ◌<◌, ◌≤◌, length, get_or, Some, unwrap_or};
ghost use Rattle.array.specs.Index.{all_below, lesser, least};
ghost use Rattle.array.specs.Bit.{bit};
ghost use Rattle.plan.specs.Limits.{most_nodes, most_frames, most_cells};
ghost use Rattle.ballot.specs.Majority.{holders as holders_of, agreement, majority as majority_of};
ghost use Rattle.ballot.specs.Code.{Told};
ghost use Rattle.rows.specs.Code.{word_count, word_place, Through};
ghost use Rattle.row_counter.specs.Code.{Put, frame_before};
ghost use Rattle.row_word.specs.Code.{is_good, heard_word};
ghost use Rattle.row_vote.specs.Code.{voted_at, sent_word, takes, word_after, word_agreement, voted_row, row_agreement, voted_word, columns_least};

use faults::Faults;
use plan::Plan;
use rows::RowWords;
use system::System;

// The frame before each node's counter.
fn frames_before(
    counters: &[u16; RowWords::ROWS],
    nodes: usize,
    frames: usize,
) -> [usize; System::NODES]
    requires { (nodes ≤ most_nodes) × (0 < frames) × (frames ≤ most_frames) }
    ensures { ((j : ℕ) → j < nodes → get_or result j 0 ≡ frame_before frames (get_or counters.now (suc j) 0)) × ((j : ℕ) → j < nodes → get_or result j 0 < most_frames) }
{
    let mut all = [0usize; System::NODES];
    for j in 0..nodes {
        all[j] = memory::step::frame_before(counters[j + 1], frames);
    }
    all
}

// ---- one cell

fn sent_word(whole: bool, x: u64) -> u64
    ensures { result ≡ cond whole x 0 }
{
    if whole { x } else { 0 }
}

// What each node sends of a cell as a good one.
fn sent_words(
    voted: &[bool; Plan::VOTES],
    nodes: usize,
    sent: &[usize; System::NODES],
    cells: &[u64; RowWords::WORDS],
    c: usize,
) -> [u64; System::NODES]
    requires { (nodes ≤ most_nodes) × (c < most_cells) × ((j : ℕ) → j < nodes → get_or sent.now j 0 < most_frames) }
    ensures { Told (λ j. Some (sent_word voted.now (λ k. get_or sent.now k 0) cells.now c j)) nodes result }
{
    let mut words = [0u64; System::NODES];
    for j in 0..nodes {
        let g = sent[j];
        words[j] = sent_word(
            plan::step::is_voted(voted, g, c),
            cells[rows::step::word_place(j + 1, c)],
        );
    }
    words
}

// Each good receiver that votes on the cell counts for itself; what is given is the least of `low` and their agreements.
fn cell_each(
    voted: &[bool; Plan::VOTES],
    faults: &Faults,
    frames: &[usize; System::NODES],
    words: &[u64; System::NODES],
    cells: &mut [u64; RowWords::WORDS],
    c: usize,
    low: usize,
) -> usize
    requires { (c < faults.now.sizes.cells) × ((j : ℕ) → j < faults.now.sizes.nodes → get_or frames.now j 0 < most_frames) }
    ensures { Put (λ i. word_place (suc i) c) (takes voted.now faults.now.mask (λ i. get_or frames.now i 0) c) (λ i. unwrap_or (majority_of (heard_word faults.now.sizes faults.now.mask faults.now.bytes.now (λ j. get_or words.now j 0) (suc c) i) faults.now.sizes.nodes) (get_or cells.old (word_place (suc i) c) 0)) faults.now.sizes.nodes cells.old cells.new × (result ≡ lesser low (least (takes voted.now faults.now.mask (λ i. get_or frames.now i 0) c) (λ i. agreement (heard_word faults.now.sizes faults.now.mask faults.now.bytes.now (λ j. get_or words.now j 0) (suc c) i) faults.now.sizes.nodes) faults.now.sizes.nodes)) }
{
    let nodes = faults.sizes.nodes;
    let mut agreed = low;
    for i in 0..nodes {
        let g = frames[i];
        if !counts::step::is_bad(faults.mask, i) & plan::step::is_voted(voted, g, c) {
            let all = row_word::step::heard(faults, i, c + 1, words);
            let v = ballot::step::majority(&all.words, all.count, nodes);
            let at = rows::step::word_place(i + 1, c);
            cells[at] = v.unwrap_or(cells[at]);
            agreed = agreed.min(ballot::step::agreement(&all.words, all.count, v));
        }
    }
    agreed
}

// The least of `low` and of how many hold x of the cell as each good receiver hears it.
fn cell_agreed(faults: &Faults, words: &[u64; System::NODES], c: usize, x: u64, low: usize) -> usize
    requires { (0 < faults.now.sizes.nodes) × (c < faults.now.sizes.cells) }
    ensures { result ≡ lesser low (least (is_good faults.now.mask) (λ i. holders_of (heard_word faults.now.sizes faults.now.mask faults.now.bytes.now (λ j. get_or words.now j 0) (suc c) i) faults.now.sizes.nodes x) faults.now.sizes.nodes) }
{
    let nodes = faults.sizes.nodes;
    let mask = faults.mask;
    let held = row_word::step::good_holders(words, nodes, mask, x);
    if mask == 0 {
        return low.min(held);
    }
    row_word::step::agreed(faults, c + 1, words, x, held, low)
}

fn hand_to_all(nodes: usize, mask: u64, cells: &mut [u64; RowWords::WORDS], c: usize, x: u64)
    requires { (nodes ≤ most_nodes) × (c < most_cells) }
    ensures { Put (λ j. word_place (suc j) c) (is_good mask) (λ j. x) nodes cells.old cells.new }
{
    for j in 0..nodes {
        if !counts::step::is_bad(mask, j) {
            cells[rows::step::word_place(j + 1, c)] = x;
        }
    }
}

// ---- where the counter is decided, all good nodes vote in one frame

fn vote_cell(
    voted: &[bool; Plan::VOTES],
    faults: &Faults,
    sent: &[usize; System::NODES],
    one: usize,
    cells: &mut [u64; RowWords::WORDS],
    c: usize,
    low: usize,
) -> usize
    requires { (0 < faults.now.sizes.nodes) × (c < faults.now.sizes.cells) × ((j : ℕ) → j < faults.now.sizes.nodes → get_or sent.now j 0 < most_frames) × (one < most_frames) × (voted_at voted.now one c ≡ true) }
    ensures { Put (λ i. word_place (suc i) c) (is_good faults.now.mask) (word_after voted.now faults.now.sizes faults.now.mask faults.now.bytes.now (λ j. get_or sent.now j 0) cells.old c) faults.now.sizes.nodes cells.old cells.new × (result ≡ lesser low (least (is_good faults.now.mask) (word_agreement voted.now faults.now.sizes faults.now.mask faults.now.bytes.now (λ j. get_or sent.now j 0) cells.old c) faults.now.sizes.nodes)) }
{
    let nodes = faults.sizes.nodes;
    let mask = faults.mask;
    let words = sent_words(voted, nodes, sent, cells, c);
    let Some(x) = row_word::step::decided(&words, nodes, mask) else {
        if mask != 0 {
            let frames = [one; System::NODES];
            return cell_each(voted, faults, &frames, &words, cells, c, low);
        }
        return 0;
    };
    hand_to_all(nodes, mask, cells, c, x);
    cell_agreed(faults, &words, c, x, low)
}

fn vote_one(
    voted: &[bool; Plan::VOTES],
    faults: &Faults,
    sent: &[usize; System::NODES],
    one: usize,
    cells: &mut [u64; RowWords::WORDS],
    low: usize,
) -> usize
    requires { (0 < faults.now.sizes.nodes) × ((j : ℕ) → j < faults.now.sizes.nodes → get_or sent.now j 0 < most_frames) × (one < most_frames) }
    ensures { ((q d : ℕ) → d < most_cells → get_or cells.new (word_place q d) 0 ≡ voted_word voted.now faults.now.sizes faults.now.mask faults.now.bytes.now (λ j. get_or sent.now j 0) (λ i. one) cells.old faults.now.sizes.cells q d) × (result ≡ columns_least voted.now faults.now.sizes faults.now.mask faults.now.bytes.now (λ j. get_or sent.now j 0) (λ i. one) cells.old low faults.now.sizes.cells) × (length cells.new ≡ word_count) }
{
    let count = faults.sizes.cells;
    let mut agreed = low;
    for c in 0..count {
        if plan::step::is_voted(voted, one, c) {
            agreed = vote_cell(voted, faults, sent, one, cells, c, agreed);
        }
    }
    agreed
}

// ---- where it is not, each good node votes in a frame of its own

fn vote_each(
    voted: &[bool; Plan::VOTES],
    faults: &Faults,
    sent: &[usize; System::NODES],
    frames: &[usize; System::NODES],
    cells: &mut [u64; RowWords::WORDS],
    low: usize,
) -> usize
    requires { ((j : ℕ) → j < faults.now.sizes.nodes → get_or sent.now j 0 < most_frames) × ((j : ℕ) → j < faults.now.sizes.nodes → get_or frames.now j 0 < most_frames) }
    ensures { ((q d : ℕ) → d < most_cells → get_or cells.new (word_place q d) 0 ≡ voted_word voted.now faults.now.sizes faults.now.mask faults.now.bytes.now (λ j. get_or sent.now j 0) (λ i. get_or frames.now i 0) cells.old faults.now.sizes.cells q d) × (result ≡ columns_least voted.now faults.now.sizes faults.now.mask faults.now.bytes.now (λ j. get_or sent.now j 0) (λ i. get_or frames.now i 0) cells.old low faults.now.sizes.cells) × (length cells.new ≡ word_count) }
{
    let s = faults.sizes;
    let count = s.cells;
    let mut agreed = low;
    for c in 0..count {
        let words = sent_words(voted, s.nodes, sent, cells, c);
        agreed = cell_each(voted, faults, frames, &words, cells, c, agreed);
    }
    agreed
}

// An agreement of the good nodes; 0 where all are bad.
fn of_good(nodes: usize, mask: u64, agreement: usize) -> usize
    requires { nodes ≤ most_nodes }
    ensures { result ≡ cond (all_below (λ j. bit mask j) nodes) 0 agreement }
{
    for j in 0..nodes {
        if !counts::step::is_bad(mask, j) {
            return agreement;
        }
    }
    0
}

// Every good row after the vote; what is given is the least of the good nodes' agreements, 0 where all are bad.
pub fn vote(voted: &[bool; Plan::VOTES], faults: &Faults, rows: &mut RowWords) -> usize
    requires { (0 < faults.now.sizes.nodes) × (0 < faults.now.sizes.frames) × (faults.now.sizes.frames ≤ most_frames) }
    ensures { Through (faults.now.sizes.nodes + 1) (voted_row voted.now faults.now.sizes faults.now.mask faults.now.bytes.now rows.old.counters rows.old.cells) rows.old.counters rows.old.cells rows.new.counters rows.new.cells × (result ≡ unwrap_or (least (is_good faults.now.mask) (row_agreement voted.now faults.now.sizes faults.now.mask faults.now.bytes.now rows.old.counters rows.old.cells) faults.now.sizes.nodes) 0) × (rows.new.good ≡ rows.old.good) × (rows.new.seen ≡ rows.old.seen) }
{
    let s = faults.sizes;
    let sent = frames_before(&rows.counters, s.nodes, s.frames);
    let polled = row_counter::step::vote_counter(faults, &mut rows.counters);
    if let Some(one) = polled.frame {
        return vote_one(voted, faults, &sent, one, &mut rows.cells, polled.agreement);
    }
    let frames = frames_before(&rows.counters, s.nodes, s.frames);
    let agreement = vote_each(
        voted,
        faults,
        &sent,
        &frames,
        &mut rows.cells,
        polled.agreement,
    );
    of_good(s.nodes, faults.mask, agreement)
}

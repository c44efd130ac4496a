// The vote on the counters of all nodes, on rows.
ghost use Rattle.std.specs.Prelude.{◌≡◌, suc, ◌<◌, ◌≤◌, get_or, Some};
ghost use Rattle.array.specs.Index.{lesser, least};
ghost use Rattle.plan.specs.Limits.{most_nodes, most_frames};
ghost use Rattle.ballot.specs.Majority.{holders as holders_of, agreement, or_own, majority as majority_of};
ghost use Rattle.ballot.specs.Code.{Told};
ghost use Rattle.row_word.specs.Code.{is_good, good_only, heard_word};
ghost use Rattle.row_counter.specs.Code.{Put, agreed_frame, counter_after, counter_agreement};

use faults::Faults;
use rows::RowWords;
use system::System;

fn wide(x: u16) -> u64
    ensures { result ≡ x }
{
    x as u64
}

fn counter_words(counters: &[u16; RowWords::ROWS], nodes: usize) -> [u64; System::NODES]
    requires { nodes ≤ most_nodes }
    ensures { Told (λ j. Some (get_or counters.now (suc j) 0)) nodes result }
{
    let mut words = [0u64; System::NODES];
    for j in 0..nodes {
        words[j] = wide(counters[j + 1]);
    }
    words
}

// Each good receiver counts for itself; what is given is the least of `low` and their agreements.
fn counters_each(
    faults: &Faults,
    words: &[u64; System::NODES],
    counters: &mut [u16; RowWords::ROWS],
    low: usize,
) -> usize
    requires { faults.now.sizes.frames ≤ most_frames }
    ensures { Put suc (is_good faults.now.mask) (λ i. or_own faults.now.sizes.frames (get_or counters.old (suc i) 0) (majority_of (heard_word faults.now.sizes faults.now.mask faults.now.bytes.now (λ j. get_or words.now j 0) 0 i) faults.now.sizes.nodes)) faults.now.sizes.nodes counters.old counters.new × (result ≡ lesser low (least (is_good faults.now.mask) (λ i. agreement (heard_word faults.now.sizes faults.now.mask faults.now.bytes.now (λ j. get_or words.now j 0) 0 i) faults.now.sizes.nodes) faults.now.sizes.nodes)) }
{
    let nodes = faults.sizes.nodes;
    let frames = faults.sizes.frames;
    let mut agreed = low;
    for i in 0..nodes {
        if !counts::step::is_bad(faults.mask, i) {
            let all = row_word::step::heard(faults, i, 0, words);
            let v = ballot::step::majority(&all.words, all.count, nodes);
            counters[i + 1] = ballot::step::or_own(frames, counters[i + 1], v);
            agreed = agreed.min(ballot::step::agreement(&all.words, all.count, v));
        }
    }
    agreed
}

// The least agreement of the good nodes on a counter that is decided.
fn counter_agreed(faults: &Faults, words: &[u64; System::NODES], x: u64) -> usize
    requires { 0 < faults.now.sizes.nodes }
    ensures { result ≡ lesser faults.now.sizes.nodes (least (is_good faults.now.mask) (λ i. holders_of (heard_word faults.now.sizes faults.now.mask faults.now.bytes.now (λ j. get_or words.now j 0) 0 i) faults.now.sizes.nodes x) faults.now.sizes.nodes) }
{
    let nodes = faults.sizes.nodes;
    let mask = faults.mask;
    let held = row_word::step::good_holders(words, nodes, mask, x);
    if mask == 0 {
        return nodes.min(held);
    }
    row_word::step::agreed(faults, 0, words, x, held, nodes)
}

fn settle_counters(nodes: usize, mask: u64, counter: u16, counters: &mut [u16; RowWords::ROWS])
    requires { nodes ≤ most_nodes }
    ensures { Put suc (is_good mask) (λ j. counter) nodes counters.old counters.new }
{
    for j in 0..nodes {
        if !counts::step::is_bad(mask, j) {
            counters[j + 1] = counter;
        }
    }
}

// The frame in which all good nodes vote, if there is one, and the least of their agreements on the counter.
#[derive(Clone, Copy)]
pub struct Polled {
    pub frame: Option<usize>,
    pub agreement: usize,
}

// The counters after the vote.
pub fn vote_counter(faults: &Faults, counters: &mut [u16; RowWords::ROWS]) -> Polled
    requires { (0 < faults.now.sizes.nodes) × (0 < faults.now.sizes.frames) × (faults.now.sizes.frames ≤ most_frames) }
    ensures { (result.frame ≡ agreed_frame faults.now.sizes.frames (majority_of (good_only faults.now.mask (λ j. get_or counters.old (suc j) 0)) faults.now.sizes.nodes)) × Put suc (is_good faults.now.mask) (counter_after faults.now.sizes faults.now.mask faults.now.bytes.now counters.old) faults.now.sizes.nodes counters.old counters.new × (result.agreement ≡ lesser faults.now.sizes.nodes (least (is_good faults.now.mask) (counter_agreement faults.now.sizes faults.now.mask faults.now.bytes.now counters.old) faults.now.sizes.nodes)) }
{
    let nodes = faults.sizes.nodes;
    let frames = faults.sizes.frames;
    let mask = faults.mask;
    let words = counter_words(counters, nodes);
    let Some(x) = row_word::step::decided(&words, nodes, mask) else {
        if mask != 0 {
            let least = counters_each(faults, &words, counters, nodes);
            return Polled {
                frame: None,
                agreement: least,
            };
        }
        return Polled {
            frame: None,
            agreement: 0,
        };
    };
    let agreement = counter_agreed(faults, &words, x);
    if x < frames as u64 {
        let counter = x as u16;
        settle_counters(nodes, mask, counter, counters);
        let frame = memory::step::frame_before(counter, frames);
        return Polled {
            frame: Some(frame),
            agreement,
        };
    }
    Polled {
        frame: None,
        agreement,
    }
}

// One word of all nodes: word 0 of a bin is its counter, word c + 1 its cell c. What more than half sent as good nodes every receiver hears from more than half, so it is decided once;
// where no such value exists each good receiver counts for itself, with what the bad ones told it.
ghost use Rattle.std.specs.Prelude.{◌≡◌, ◌<◌, ◌≤◌, get_or};
ghost use Rattle.array.specs.Index.{lesser, least};
ghost use Rattle.plan.specs.Limits.{most_nodes};
ghost use Rattle.ballot.specs.Majority.{holders as holders_of, majority as majority_of};
ghost use Rattle.ballot.specs.Code.{Packs};
ghost use Rattle.row_word.specs.Code.{is_good, good_only, heard_word};

use ballot::Words;
use faults::Faults;
use system::System;

// ---- what the good nodes tell

fn good_ones(words: &[u64; System::NODES], nodes: usize, mask: u64) -> Words
    requires { nodes ≤ most_nodes }
    ensures { Packs (good_only mask (λ j. get_or words.now j 0)) nodes result.words result.count }
{
    let mut good = [0u64; System::NODES];
    let mut k: usize = 0;
    for j in 0..nodes {
        if !counts::step::is_bad(mask, j) {
            good[k] = words[j];
            k += 1;
        }
    }
    Words {
        words: good,
        count: k,
    }
}

// What more than half of the nodes sent as good ones.
pub fn decided(words: &[u64; System::NODES], nodes: usize, mask: u64) -> Option<u64>
    requires { nodes ≤ most_nodes }
    ensures { result ≡ majority_of (good_only mask (λ j. get_or words.now j 0)) nodes }
{
    if mask == 0 {
        return ballot::step::majority(words, nodes, nodes);
    }
    let good = good_ones(words, nodes, mask);
    ballot::step::majority(&good.words, good.count, nodes)
}

// How many good nodes sent a value.
pub fn good_holders(words: &[u64; System::NODES], nodes: usize, mask: u64, x: u64) -> usize
    requires { nodes ≤ most_nodes }
    ensures { result ≡ holders_of (good_only mask (λ j. get_or words.now j 0)) nodes x }
{
    if mask == 0 {
        return ballot::step::holders(words, nodes, x);
    }
    let mut held: usize = 0;
    for j in 0..nodes {
        if !counts::step::is_bad(mask, j) & (words[j] == x) {
            held += 1;
        }
    }
    held
}

// ---- what a receiver hears

// Word w as receiver i hears it, where good nodes sent `words`.
pub fn heard(faults: &Faults, i: usize, w: usize, words: &[u64; System::NODES]) -> Words
    requires { (i < faults.now.sizes.nodes) × (w ≤ faults.now.sizes.cells) }
    ensures { Packs (heard_word faults.now.sizes faults.now.mask faults.now.bytes.now (λ j. get_or words.now j 0) w i) faults.now.sizes.nodes result.words result.count }
{
    let s = faults.sizes;
    let at = faults::step::message_at(s, 0, i);
    mailbox::step::heard(
        faults.bytes,
        at,
        faults::step::part_size(s),
        faults.mask,
        s.nodes,
        w,
        words,
    )
}

// The least of `low` and of how many hold x of word w as each good receiver hears it. None hears of fewer than the `held` that sent it as good nodes, so the
// count ends where the least is down to these. With no bad node it is the lesser of `low` and `held`, which callers test first: that saves the call.
pub fn agreed(
    faults: &Faults,
    w: usize,
    words: &[u64; System::NODES],
    x: u64,
    held: usize,
    low: usize,
) -> usize
    requires { (w ≤ faults.now.sizes.cells) × (held ≡ holders_of (good_only faults.now.mask (λ j. get_or words.now j 0)) faults.now.sizes.nodes x) }
    ensures { result ≡ lesser low (least (is_good faults.now.mask) (λ i. holders_of (heard_word faults.now.sizes faults.now.mask faults.now.bytes.now (λ j. get_or words.now j 0) w i) faults.now.sizes.nodes x) faults.now.sizes.nodes) }
{
    let nodes = faults.sizes.nodes;
    let mut agreed = low;
    for i in 0..nodes {
        if agreed <= held {
            break;
        }
        if !counts::step::is_bad(faults.mask, i) {
            let told = heard(faults, i, w, words);
            agreed = agreed.min(ballot::step::holders(&told.words, told.count, x));
        }
    }
    agreed
}

// Bad nodes and good counts, for callers that know how many nodes there are, and the plan's period.
ghost use Rattle.std.specs.Prelude.{◌≡◌, ◌<◌, ◌≤◌, ◌^◌, eqb, leb, ltb, get_or};
ghost use Rattle.array.specs.Index.{how_many, all_below, fill};
ghost use Rattle.array.specs.Bit.{bit};
ghost use Rattle.plan.specs.Limits.{most_nodes};
ghost use Rattle.system.specs.Counts.{count_after, good_after, is_working};

use system::System;

// Bit i of the mask.
pub fn is_bad(mask: u64, i: usize) -> bool
    requires { i < most_nodes }
    ensures { result ≡ bit mask i }
{
    array::step::is_set(mask, i)
}

fn above(count: u16, period: usize) -> bool
    ensures { result ≡ ltb period count }
{
    period < count as usize
}

// 9: the mask.
pub fn mask_ok(nodes: usize, mask: u64) -> bool
    requires { nodes ≤ most_nodes }
    ensures { result ≡ ltb mask (2 ^ nodes) }
{
    mask >> nodes == 0
}

// 9: the good counts of the plan's nodes.
pub fn counts_ok(good: &[u16; System::NODES], nodes: usize, period: usize) -> bool
    requires { nodes ≤ most_nodes }
    ensures { result ≡ all_below (λ i. leb (get_or good.now i 0) period) nodes }
{
    for i in 0..nodes {
        if above(good[i], period) {
            return false;
        }
    }
    true
}

fn count_after(bad: bool, count: u16, period: usize) -> u16
    requires { period < 65536 }
    ensures { result ≡ count_after period bad count }
{
    if bad {
        return 0;
    }
    period.min(count as usize + 1) as u16
}

// The good counts after a frame with this mask.
pub fn counts(good: &mut [u16; System::NODES], nodes: usize, mask: u64, period: usize)
    requires { (nodes ≤ most_nodes) × (period < 65536) }
    ensures { good.new ≡ fill (good_after period mask good.old) nodes good.old }
{
    for i in 0..nodes {
        good[i] = count_after(is_bad(mask, i), good[i], period);
    }
}

fn is_full(count: u16, period: usize) -> bool
    ensures { result ≡ eqb count period }
{
    count as usize == period
}

// How many nodes are working in a frame with this mask.
pub fn working(good: &[u16; System::NODES], nodes: usize, period: usize, mask: u64) -> usize
    requires { nodes ≤ most_nodes }
    ensures { result ≡ how_many (is_working period mask good.now) nodes }
{
    let mut count: usize = 0;
    for i in 0..nodes {
        if !is_bad(mask, i) & is_full(good[i], period) {
            count += 1;
        }
    }
    count
}

// Histories counted and written, frame by frame: a mask that leaves no more than half of the nodes working is gone no further into.
ghost use Rattle.std.specs.Prelude.{◌≡◌, true, ◌+◌, ◌*◌, ◌^◌, ◌<◌, ◌≤◌, length};
ghost use mathlib.Core.List.{flatten};
ghost use Rattle.std.specs.Int.Bits.{bit_or};
ghost use Rattle.array.specs.Index.{how_many};
ghost use Rattle.array.specs.Bit.{bit};
ghost use Rattle.array.specs.Code.{placed};
ghost use Rattle.array.specs.Word.{bytes};
ghost use Rattle.history_masks.specs.Limits.{most_history_nodes, most_history_frames, limits_ok};
ghost use Rattle.history_masks.specs.Histories.{histories};
ghost use Rattle.history_masks.specs.Code.{histories_after, past_of, Most, HoldsMasks, bytes_after, last_bytes};

// The most nodes, and the most frames, of a history.
pub const NODES: usize = 5;

pub const FRAMES: usize = 4;

pub fn limits_ok(nodes: usize, frames: usize) -> bool
    ensures { result ≡ limits_ok nodes frames }
{
    (nodes <= NODES) & (1 <= frames) & (frames <= FRAMES)
}

// Counting and writing walk alike. One walk that is lent what to do with each history would hand the buffer and the place in it through every call, counting too, so the two stay.

// How many masks of a last frame leave more than half of the nodes, with these bad before.
fn count_last(most: u64, nodes: usize, bad: u64) -> usize
    requires { (nodes ≤ most_history_nodes) × (bad < 2 ^ nodes) }
    ensures { result ≡ how_many (λ mask. bit most (bit_or bad mask)) (2 ^ nodes) }
{
    let masks: u64 = 1 << nodes;
    let mut total: usize = 0;
    for mask in 0..masks {
        if history_masks::step::most_work(most, bad | mask) {
            total += 1;
        }
    }
    total
}

// How many histories go on from the masks `past` of `done` frames for `left` more.
fn count(most: u64, nodes: usize, period: usize, past: u64, done: usize, left: usize) -> usize
    requires { (nodes ≤ most_history_nodes) × Most nodes most × (1 ≤ left) × (done + left ≤ most_history_frames) × HoldsMasks nodes done past }
    ensures { result ≡ length (histories_after nodes period (past_of done past) left) }
{
    let bad = history_masks::step::bad_in(past, period);
    if left == 1 {
        return count_last(most, nodes, bad);
    }
    let masks: u64 = 1 << nodes;
    let mut total: usize = 0;
    for mask in 0..masks {
        if history_masks::step::most_work(most, bad | mask) {
            total += count(most, nodes, period, past * 256 + mask, done + 1, left - 1);
        }
    }
    total
}

// How many histories of so many frames there are.
pub fn count_all(nodes: usize, period: usize, frames: usize) -> usize
    requires { limits_ok nodes frames ≡ true }
    ensures { result ≡ length (histories nodes period frames) }
{
    let most = history_masks::step::most_masks(nodes);
    count(most, nodes, period, 0, 0, frames)
}

// The masks of a history, the first frame's first.
fn put_masks(past: u64, frames: usize, out: &mut [u8], at: usize)
    requires { (frames ≤ 8) × (at + frames ≤ length out.old) }
    ensures { out.new ≡ placed out.old at (bytes frames past) }
{
    let masks = past.to_be_bytes();
    out[at..at + frames].copy_from_slice(&masks[8 - frames..]);
}

// Writes the histories of so many frames that have these masks before the last, from a place on, and gives the place after them.
fn put_last(
    most: u64,
    nodes: usize,
    bad: u64,
    past: u64,
    frames: usize,
    out: &mut [u8],
    at: usize,
) -> usize
    requires { (nodes ≤ most_history_nodes) × (bad < 2 ^ nodes) × (past < 256 ^ 3) × (at + length (last_bytes most bad past frames (2 ^ nodes)) ≤ length out.old) × (frames ≤ 8) }
    ensures { (result ≡ at + length (last_bytes most bad past frames (2 ^ nodes))) × (out.new ≡ placed out.old at (last_bytes most bad past frames (2 ^ nodes))) }
{
    let masks: u64 = 1 << nodes;
    let mut end = at;
    for mask in 0..masks {
        if history_masks::step::most_work(most, bad | mask) {
            put_masks(past * 256 + mask, frames, out, end);
            end += frames;
        }
    }
    end
}

// Writes them from a place on, and gives the place after them.
fn put(
    most: u64,
    nodes: usize,
    period: usize,
    past: u64,
    done: usize,
    left: usize,
    out: &mut [u8],
    at: usize,
) -> usize
    requires { (nodes ≤ most_history_nodes) × Most nodes most × (1 ≤ left) × (done + left ≤ most_history_frames) × HoldsMasks nodes done past × (at + length (bytes_after nodes period done past left) ≤ length out.old) }
    ensures { (result ≡ at + length (bytes_after nodes period done past left)) × (out.new ≡ placed out.old at (bytes_after nodes period done past left)) }
{
    let bad = history_masks::step::bad_in(past, period);
    if left == 1 {
        return put_last(most, nodes, bad, past, done + 1, out, at);
    }
    let masks: u64 = 1 << nodes;
    let mut end = at;
    for mask in 0..masks {
        if history_masks::step::most_work(most, bad | mask) {
            end = put(
                most,
                nodes,
                period,
                past * 256 + mask,
                done + 1,
                left - 1,
                out,
                end,
            );
        }
    }
    end
}

// Writes all of them to the front, and gives how many bytes they are.
pub fn put_all(nodes: usize, period: usize, frames: usize, out: &mut [u8]) -> usize
    requires { (limits_ok nodes frames ≡ true) × (length (flatten (histories nodes period frames)) ≤ length out.old) }
    ensures { (result ≡ length (flatten (histories nodes period frames))) × (out.new ≡ placed out.old 0 (flatten (histories nodes period frames))) }
{
    let most = history_masks::step::most_masks(nodes);
    put(most, nodes, period, 0, 0, frames, out, 0)
}

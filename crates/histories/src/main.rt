// The program of request 2026-05: reads plan.txt and prints the fault histories of three frames, one a line, or the refusal as a run does.
#![tactic(auto)]

ghost use Rattle.std.specs.Prelude.{◌≡◌, ◌∷◌, [], ◌*◌, ◌≤◌, length, take};
ghost use Rattle.array.specs.Index.{joined, from};
ghost use Rattle.array.specs.Code.{placed};
ghost use Rattle.column.specs.Row.{row};
ghost use Rattle.histories.specs.HistoriesListing.{history_frames, history_widths, histories_listing};
ghost use Rattle.histories.specs.Code.{most_histories, history_line_size};

use answer::Refusal;
use std::io;
use std::io::Write;

// The frames of a history that is printed, the column of a mask, a line with its line feed.
const FRAMES: usize = 3;

const MASK: usize = 4;

const LINE: usize = FRAMES * MASK + 1;

// More histories than any plan has.
const MOST: usize = 4096;

fn write_history(out: &mut [u8], first: u8, second: u8, third: u8)
    requires { length out.old ≡ history_line_size }
    ensures { out.new ≡ row history_widths (first ∷ second ∷ third ∷ []) }
{
    column_write::step::put(out, 0, MASK, first as u64);
    column_write::step::put(out, MASK, MASK, second as u64);
    column_write::step::put(out, 2 * MASK, MASK, third as u64);
    out[FRAMES * MASK] = b'\n';
}

fn write_histories(masks: &[u8], count: usize, out: &mut [u8])
    requires { (count ≤ most_histories) × (count * history_frames ≤ length masks.now) × (count * history_line_size ≤ length out.old) }
    ensures { out.new ≡ placed out.old 0 (joined (λ k. row history_widths (from 0 masks.now (k * history_frames) history_frames)) count) }
{
    for k in 0..count {
        let at = k * FRAMES;
        let line = k * LINE;
        write_history(
            &mut out[line..line + LINE],
            masks[at],
            masks[at + 1],
            masks[at + 2],
        );
    }
}

// What is printed for a plan text, and its length.
fn print(text: &[u8], masks: &mut [u8], out: &mut [u8]) -> usize
    requires { (most_histories * history_frames ≤ length masks.old) × (most_histories * history_line_size ≤ length out.old) }
    ensures { (result ≤ length out.new) × (take result out.new ≡ histories_listing text.now) }
{
    let read = match plan_text::step::read(text) {
        Ok(read) => read,
        Err(refusal) => {
            run_line::step::write_refusal(out, refusal);
            return run_line::step::REFUSAL;
        }
    };
    let nodes = read.plan.nodes;
    if !history_search::step::limits_ok(nodes, FRAMES) {
        run_line::step::write_refusal(out, Refusal::NodesOrLength);
        return run_line::step::REFUSAL;
    }
    let size = history_search::step::put_all(nodes, read.period, FRAMES, masks);
    let count = size / FRAMES;
    write_histories(masks, count, out);
    count * LINE
}

fn show<R: Print>(rt: &R, text: &[u8], masks: &mut [u8], out: &mut [u8])
    requires { (most_histories * history_frames ≤ length masks.old) × (most_histories * history_line_size ≤ length out.old) }
{
    let size = print(text, masks, out);
    // A write that fails is passed over.
    let _ = io::writer(rt).write_all(&out[0..size]);
}

fn main(rt: HostRuntime) {
    let mut text = [0u8; plan_file::TEXT];
    let mut masks = [0u8; MOST * FRAMES];
    let mut out = [0u8; MOST * LINE];
    let n = plan_file::read(&rt, &mut text);
    show(
        &rt,
        &text[0..n],
        &mut masks[0..MOST * FRAMES],
        &mut out[0..MOST * LINE],
    );
}

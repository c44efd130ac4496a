// The program behind `./ragbasalt check`: reads plan.txt and prints the recovery period R, or the refusal as a run does.
#![tactic(auto)]

ghost use Rattle.std.specs.Prelude.{◌≡◌, ◌≤◌, length, take};
ghost use Rattle.run_line.specs.Line.{refusal_size};
ghost use Rattle.plan_check.specs.CheckListing.{check_listing};

use std::io;
use std::io::Write;

// The column of R; its line feed follows.
const PERIOD: usize = 4;

// What is printed for a plan text, and its length.
fn print(text: &[u8], out: &mut [u8]) -> usize
    requires { refusal_size ≤ length out.old }
    ensures { (result ≤ length out.new) × (take result out.new ≡ check_listing text.now) }
{
    match plan_text::step::read(text) {
        Ok(read) => {
            column_write::step::put(out, 0, PERIOD, read.period as u64);
            out[PERIOD] = b'\n';
            PERIOD + 1
        }
        Err(refusal) => {
            run_line::step::write_refusal(out, refusal);
            run_line::step::REFUSAL
        }
    }
}

fn show<R: Print>(rt: &R, text: &[u8], out: &mut [u8])
    requires { refusal_size ≤ length out.old }
{
    let size = print(text, out);
    // A write that fails is passed over.
    let _ = io::writer(rt).write_all(&out[0..size]);
}

fn main(rt: HostRuntime) {
    let mut text = [0u8; plan_file::TEXT];
    let mut out = [0u8; run_line::step::REFUSAL];
    let n = plan_file::read(&rt, &mut text);
    show(&rt, &text[0..n], &mut out[0..run_line::step::REFUSAL]);
}

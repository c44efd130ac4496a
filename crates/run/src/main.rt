// The run program: reads plan.txt and run.txt, and prints the listing. It moves bytes; what is printed, what is refused and when the listing ends is
// decided in `lines` and `listing_start`.
#![tactic(auto)]

ghost use Rattle.std.specs.Prelude.{◌≡◌, true, ◌&&◌, ◌+◌, ◌*◌, ◌≤◌, eqb, is_none, length, take};
ghost use Rattle.plan.specs.Known.{period as period_of};
ghost use Rattle.plan.specs.Accepted.{accepted};
ghost use Rattle.plan.specs.Limits.{most_nodes};
ghost use Rattle.plan.specs.Sizes.{sizes_of};
ghost use Rattle.system.specs.Fault.{faults_size};
ghost use Rattle.faults.specs.Code.{Held};
ghost use Rattle.run_line.specs.Line.{run_line_size, printed_size, refusal_size};
ghost use Rattle.run_line.specs.Listing.{most_run_lines};
ghost use Rattle.lines.specs.Code.{block_lines, lines_answer};
ghost use Rattle.lines.specs.Blocks.{LaidBlock};
ghost use Rattle.run.specs.Followed.{Followed};

use answer::Refusal;
use lines::{Printed, Run};
use std::io::{Read as Input, Write};
use std::{fs, io};
use system::System;

// The longest block of run lines, and of printed ones with the line of a refusal.
const INPUT: usize = lines::step::BLOCK * 329;

const OUTPUT: usize = lines::step::BLOCK * 181 + run_line::step::REFUSAL;

fn print_refusal<R: Print>(rt: &R, refusal: Refusal) {
    let mut line = [0u8; run_line::step::REFUSAL];
    run_line::step::write_refusal(&mut line, refusal);
    // A write that fails is passed over.
    let _ = io::writer(rt).write_all(&line);
}

// What the lines of a block print, with the line of a refusal, and the run after them.
fn listed(
    run: Run,
    rest: &[u8],
    held: &mut [u8; System::NODES],
    faults: &mut [u8],
    out: &mut [u8],
) -> Printed
    requires { (accepted run.plan ≡ true) × (run.period ≡ period_of run.plan) × (run.frame ≤ most_run_lines) × (length rest.now ≤ block_lines * run_line_size run.plan.sensors) × (length held.old ≡ most_nodes) × (length faults.old ≡ faults_size (sizes_of run.plan)) × Held (sizes_of run.plan) held.old faults.old × (block_lines * printed_size run.plan.actuators + refusal_size ≤ length out.old) }
    ensures { (result.refused ≡ (lines_answer run rest.now).refused) × LaidBlock run rest.now out.new result.count result.run × (length held.new ≡ most_nodes) × Held (sizes_of run.plan) held.new faults.new }
{
    let r = lines::step::lines(run, rest, held, faults, out);
    let Some(refusal) = r.refused else {
        return r;
    };
    let count = r.count;
    let end = count + run_line::step::REFUSAL;
    run_line::step::write_refusal(&mut out[count..end], refusal);
    Printed {
        refused: r.refused,
        count: end,
        run: r.run,
    }
}

// How many bytes were read and printed, whether the file may have more lines, and the run after those read.
#[derive(Clone, Copy)]
struct Read {
    got: usize,
    printed: usize,
    more: bool,
    run: Run,
}

// The next lines of the file, as many as the input has room for.
fn block<R: Print, F: Input>(
    rt: &R,
    file: &mut F,
    run: Run,
    input: &mut [u8],
    held: &mut [u8; System::NODES],
    faults: &mut [u8],
    out: &mut [u8],
) -> Read
    requires { (accepted run.plan ≡ true) × (run.period ≡ period_of run.plan) × (run.frame ≤ most_run_lines) × (length input.old ≤ block_lines * run_line_size run.plan.sensors) × (length held.old ≡ most_nodes) × (length faults.old ≡ faults_size (sizes_of run.plan)) × Held (sizes_of run.plan) held.old faults.old × (block_lines * printed_size run.plan.actuators + refusal_size ≤ length out.old) }
    ensures { (length input.new ≡ length input.old) × (result.got ≤ length input.new) × LaidBlock run (take result.got input.new) out.new result.printed result.run × (result.more ≡ (is_none (lines_answer run (take result.got input.new)).refused && eqb result.got (length input.new))) × (length held.new ≡ most_nodes) × (length faults.new ≡ length faults.old) × Held (sizes_of run.plan) held.new faults.new × (length out.new ≡ length out.old) }
{
    let got = plan_file::read_full(file, input);
    let r = listed(run, &input[0..got], held, faults, out);
    let printed = r.count;
    let _ = io::writer(rt).write_all(&out[0..printed]);
    let whole = got == input.len();
    Read {
        got,
        printed,
        more: r.refused.is_none() & whole,
        run: r.run,
    }
}

// The lines of the file, block by block, each from the run that the one before left. Gives the run after the last.
fn follow<R: Print, F: Input>(rt: &R, file: &mut F, start: Run) -> Run
    requires { (accepted start.plan ≡ true) × (start.period ≡ period_of start.plan) × (start.frame ≤ most_run_lines) }
    ensures { Followed start result }
{
    let size = lines::step::BLOCK * run_line::step::line_size(start.plan.sensors);
    let bytes = faults::step::size(plan::sizes_with(start.plan, start.period));
    let mut run = start;
    let mut input = [0u8; INPUT];
    let mut out = [0u8; OUTPUT];
    let mut held = [0u8; System::NODES];
    let mut faults = [0u8; faults::step::MOST];
    // How many blocks the file has shows at its end.
    loop {
        let read = block(
            rt,
            file,
            run,
            &mut input[0..size],
            &mut held,
            &mut faults[0..bytes],
            &mut out[0..OUTPUT],
        );
        if !read.more {
            return read.run;
        }
        run = read.run;
    }
}

fn main(rt: HostRuntime) {
    let mut text = [0u8; plan_file::TEXT];
    let n = plan_file::read(&rt, &mut text);
    match listing_start::start(&text[0..n]) {
        Ok(run) => {
            if let Ok(mut file) = fs::open(&rt, "run.txt") {
                follow(&rt, &mut file, run);
            }
        }
        Err(refusal) => print_refusal(&rt, refusal),
    }
}

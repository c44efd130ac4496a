// The steps of a run, for callers that know the plan to be accepted, its period, and the lengths to be right.
ghost use Rattle.std.specs.Prelude.{◌≡◌, true, ◌∷◌, ℕ, ◌+◌, ◌*◌, ◌≤◌, min, length, take};
ghost use Rattle.plan.specs.Accepted.{accepted};
ghost use Rattle.plan.specs.Known.{period as period_of};
ghost use Rattle.plan.specs.Limits.{most_nodes};
ghost use Rattle.plan.specs.Sizes.{sizes_of};
ghost use Rattle.cam.specs.Cam.{cam_table};
ghost use Rattle.system.specs.Fault.{faults_size};
ghost use Rattle.faults.specs.Code.{Held, BadHold};
ghost use Rattle.rows.specs.Code.{memory_in, Rows};
ghost use Rattle.run_line.specs.Line.{run_line_size, printed_size};
ghost use Rattle.run_line.specs.Listing.{most_run_lines, line_numbers, system_next, single_after, frame_line};
ghost use Rattle.run_line.specs.Code.{line_read};
ghost use Rattle.lines.specs.Code.{block_lines, step_answer, step_place, OfLine, LineMade, printed_with, lines_answer, lines_place};

use super::{Printed, Run};
use answer::Refusal;
use faults::Faults;
use memory::Memory;
use plan::{Plan, Sizes};
use rows::RowWords;
use run_line::step::LineHead;
use system::System;

// The most lines that one call of `lines` runs.
pub const BLOCK: usize = 128;

// What stands after a line that is run.
#[derive(Clone, Copy)]
pub struct Stepped {
    pub system: System,
    pub single: Memory,
}

// Where the part of `size` from a place on ends, in bytes of a length.
pub fn part_end(at: usize, len: usize, size: usize) -> usize
    requires { at ≤ len }
    ensures { result ≡ min (at + size) len }
{
    at + size.min(len - at)
}

// A frame on rows, and its line. The contract speaks for every byte that the bad nodes' parts hold.
fn finish_line(
    plan: Plan,
    sensors: &[u64],
    cams: &[u32; cam::SIZE],
    faults: &Faults,
    frame: usize,
    rows: &mut RowWords,
    out: &mut [u8],
)
    requires { (accepted plan ≡ true) × (faults.now.sizes ≡ sizes_of plan) × (length sensors.now ≡ plan.sensors) × (length out.old ≡ printed_size plan.actuators) × (cams.now ≡ cam_table) }
    ensures { (sys : System) (x : ℕ) → Rows sys rows.old.counters rows.old.cells rows.old.good rows.old.seen → BadHold faults.now.sizes faults.now.mask faults.now.bytes.now x → Rows (system_next plan sys (faults.now.mask ∷ x ∷ sensors.now)) rows.new.counters rows.new.cells rows.new.good rows.new.seen × (memory_in rows.new.counters rows.new.cells 0 ≡ single_after plan (memory_in rows.old.counters rows.old.cells 0) (faults.now.mask ∷ x ∷ sensors.now)) × (out.new ≡ frame_line plan sys (memory_in rows.old.counters rows.old.cells 0) frame (faults.now.mask ∷ x ∷ sensors.now)) }
{
    let s = faults.sizes;
    let nodes = s.nodes;
    let actuators = s.actuators;
    let working = counts::step::working(&rows.good, nodes, s.period, faults.mask);
    let agreement = row_frame::step::frame(plan, 0, sensors, cams, faults, rows);
    let equal = rows.equal(nodes, s.cells);
    run_line::step::write_frame(out, frame, working, equal, &rows.seen, actuators, agreement);
}

// What was read of a line, on rows: a frame and its line, or nothing where the line is refused. Each node's part of `faults` holds the byte that `held` has
// for it, before and after: only a bad node's part is touched, and only where its fill is another.
fn line_on_rows(
    plan: Plan,
    s: Sizes,
    read: Option<LineHead>,
    patterns: &[u64; Plan::SENSORS],
    cams: &[u32; cam::SIZE],
    frame: usize,
    held: &mut [u8; System::NODES],
    faults: &mut [u8],
    rows: &mut RowWords,
    out: &mut [u8],
) -> bool
    requires { (accepted plan ≡ true) × (s ≡ sizes_of plan) × OfLine plan frame (line_read read (take plan.sensors patterns.now)) × (length held.old ≡ most_nodes) × (length faults.old ≡ faults_size s) × Held s held.old faults.old × (length out.old ≡ printed_size plan.actuators) × (cams.now ≡ cam_table) }
    ensures { (length held.new ≡ most_nodes) × Held s held.new faults.new × ((sys : System) → Rows sys rows.old.counters rows.old.cells rows.old.good rows.old.seen → LineMade plan sys (memory_in rows.old.counters rows.old.cells 0) frame (line_read read (take plan.sensors patterns.now)) out.old result rows.new.counters rows.new.cells rows.new.good rows.new.seen out.new) }
{
    let Some(head) = read else {
        return false;
    };
    let mask = head.mask;
    let sensors = s.sensors;
    let all = &patterns[..];
    faults::step::hold(s, mask, head.fill, held, faults);
    let told = Faults {
        sizes: s,
        mask,
        bytes: faults,
    };
    finish_line(plan, &all[0..sensors], cams, &told, frame, rows, out);
    true
}

// One line of a run: a frame, or nothing where the line is refused.
pub fn line(
    plan: Plan,
    period: usize,
    system: System,
    single: Memory,
    frame: usize,
    line: &[u8],
    out: &mut [u8],
) -> Option<Stepped>
    requires { (accepted plan ≡ true) × (period ≡ period_of plan) × (length out.old ≡ printed_size plan.actuators) }
    ensures { (result ≡ step_answer plan system single (line_numbers plan frame line.now)) × (out.new ≡ step_place plan system single frame (line_numbers plan frame line.now) out.old) }
{
    let s = plan::sizes_with(plan, period);
    let size = faults::step::size(s);
    let cams = cam::table();
    let mut held = [0u8; System::NODES];
    let mut faults = [0u8; faults::step::MOST];
    let mut rows = RowWords::beside(system, single);
    let mut patterns = [0u64; Plan::SENSORS];
    let read = run_line::step::frame_numbers(frame, line, plan.nodes, plan.sensors, &mut patterns);
    if !line_on_rows(
        plan,
        s,
        read,
        &patterns,
        &cams,
        frame,
        &mut held,
        &mut faults[0..size],
        &mut rows,
        out,
    ) {
        return None;
    }
    let after = rows.system();
    let memory = rows.memory(0);
    Some(Stepped {
        system: after,
        single: memory,
    })
}

// What stands where a run stops.
fn stopped(
    refused: Option<Refusal>,
    count: usize,
    plan: Plan,
    period: usize,
    rows: &RowWords,
    frame: usize,
) -> Printed
    ensures { (sys : System) → Rows sys rows.now.counters rows.now.cells rows.now.good rows.now.seen → result ≡ printed_with refused count plan period sys (memory_in rows.now.counters rows.now.cells 0) frame }
{
    let system = rows.system();
    let single = rows.memory(0);
    let run = Run {
        plan,
        period,
        system,
        single,
        frame,
    };
    Printed {
        refused,
        count,
        run,
    }
}

// The lines of a part of a run, at most BLOCK of them, until one is refused. The frames go over rows, which are lent to every step. Each node's part of
// `faults` holds the byte that `held` has for it, before and after: only a bad node's part is touched, and only where its fill is another.
pub fn lines(
    run: Run,
    rest: &[u8],
    held: &mut [u8; System::NODES],
    faults: &mut [u8],
    out: &mut [u8],
) -> Printed
    requires { (accepted run.plan ≡ true) × (run.period ≡ period_of run.plan) × (run.frame ≤ most_run_lines) × (length rest.now ≤ block_lines * run_line_size run.plan.sensors) × (length held.old ≡ most_nodes) × (length faults.old ≡ faults_size (sizes_of run.plan)) × Held (sizes_of run.plan) held.old faults.old × (block_lines * printed_size run.plan.actuators ≤ length out.old) }
    ensures { (result ≡ lines_answer run rest.now) × (length held.new ≡ most_nodes) × Held (sizes_of run.plan) held.new faults.new × (out.new ≡ lines_place run rest.now out.old) }
{
    let plan = run.plan;
    let period = run.period;
    let first = run.frame;
    let size = run_line::step::line_size(plan.sensors);
    let width = run_line::step::printed_size(plan.actuators);
    let len = rest.len();
    let cams = cam::table();
    let s = plan::sizes_with(plan, period);
    let mut rows = RowWords::beside(run.system, run.single);
    let mut patterns = [0u64; Plan::SENSORS];
    // Three places move on together, the line's, the printed line's and the frame's, and a refused line ends the block: `chunks` would number the lines and leave the rest to be worked out from that.
    let mut k: usize = 0;
    let mut at: usize = 0;
    let mut to: usize = 0;
    while at < len {
        let frame = first + k;
        let end = part_end(at, len, size);
        let read = run_line::step::frame_numbers(
            frame,
            &rest[at..end],
            plan.nodes,
            plan.sensors,
            &mut patterns,
        );
        if !line_on_rows(
            plan,
            s,
            read,
            &patterns,
            &cams,
            frame,
            held,
            faults,
            &mut rows,
            &mut out[to..to + width],
        ) {
            return stopped(
                Some(Refusal::RunLine(frame + 1)),
                to,
                plan,
                period,
                &rows,
                frame,
            );
        }
        k += 1;
        at += size;
        to += width;
    }
    stopped(None, to, plan, period, &rows, first + k)
}

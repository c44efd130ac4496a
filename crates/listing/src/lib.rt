// The run listing: the next line of a run. The call answers any state; the steps under it are in `run_line` and `lines`.
#![tactic(auto)]

ghost use Rattle.std.specs.Prelude.{◌≡◌, true, ◌+◌, min, length};
ghost use Rattle.answer.specs.declared.Refusal.TheVariants.{RunLine};
ghost use Rattle.plan.specs.Known.{period as period_of};
ghost use Rattle.plan.specs.Accepted.{accepted};
ghost use Rattle.run_line.specs.Line.{printed_size};
ghost use Rattle.run_line.specs.Listing.{most_run_lines};
ghost use Rattle.lines.specs.Run.{next_numbers};
ghost use Rattle.listing.specs.Answers.{run_taken, place_taken, next_answer, next_run, next_place};
ghost use Rattle.lines.specs.Code.{line_taken};

use answer::Refusal;
use lines::Run;

// 10 for the line of a frame, that of frame 100,000 for every later one.
fn refused_line(frame: usize) -> Refusal
    ensures { result ≡ RunLine (min frame most_run_lines + 1) }
{
    Refusal::RunLine(frame.min(run_line::step::LINES) + 1)
}

// The next line of what is left, by a state that 7 and 9 do not refuse.
fn next_line(run: &mut Run, period: usize, rest: &[u8], out: &mut [u8]) -> Result<usize, Refusal>
    requires { (accepted run.old.plan ≡ true) × (period ≡ period_of run.old.plan) × (length out.old ≡ printed_size run.old.plan.actuators) }
    ensures { (result ≡ line_taken run.old rest.now) × (run.new ≡ run_taken run.old (next_numbers run.old rest.now)) × (out.new ≡ place_taken run.old (next_numbers run.old rest.now) out.old) }
{
    let plan = run.plan;
    let system = run.system;
    let single = run.single;
    let frame = run.frame;
    let size = run_line::step::line_size(plan.sensors);
    let end = lines::step::part_end(0, rest.len(), size);
    let Some(after) = lines::step::line(plan, period, system, single, frame, &rest[0..end], out)
    else {
        return Err(refused_line(frame));
    };
    *run = Run {
        plan,
        period,
        system: after.system,
        single: after.single,
        frame: frame + 1,
    };
    Ok(out.len())
}

// How many bytes are printed: none where nothing is left.
pub fn next(run: &mut Run, rest: &[u8], out: &mut [u8]) -> Result<usize, Refusal>
    ensures { (result ≡ next_answer run.old rest.now (length out.old)) × (run.new ≡ next_run run.old rest.now (length out.old)) × (out.new ≡ next_place run.old rest.now out.old) }
{
    let plan = run.plan;
    let period = plan_period::recovery_period(plan)?;
    let system = run.system;
    if !counts::step::counts_ok(&system.good, plan.nodes, period) {
        return Err(Refusal::MaskOrCount);
    }
    let size = run_line::step::printed_size(plan.actuators);
    if out.len() < size {
        return Err(Refusal::WrongLength);
    }
    if rest.is_empty() {
        return Ok(0);
    }
    next_line(run, period, rest, &mut out[0..size])
}

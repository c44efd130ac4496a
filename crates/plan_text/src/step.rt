// Reading a plan text, with the recovery period that its last test finds.
ghost use Rattle.std.specs.Prelude.{◌≡◌, ◌<◌, true, length, Some};
ghost use Rattle.plan.specs.Limits.{most_frames, most_cells, most_actuators};
ghost use Rattle.plan_grammar.specs.Line.{numbers_at, cell_kind, vote_kind, actuator_kind};
ghost use Rattle.plan_grammar.specs.Meant.{initial_with, voted_with, actuators_with};
ghost use Rattle.plan_grammar.specs.Refused.{length_ok, is_header};
ghost use Rattle.plan_text.specs.Code.{plan_found};
ghost use Rattle.plan_line.specs.Code.{numbers_in};

use super::PlanRead;
use answer::Refusal;
use plan::Plan;
use plan_line::{Kind, Line};

fn length_ok(n: usize) -> bool
    ensures { result ≡ length_ok n }
{
    (0 < n) & (n <= Line::TEXT) & (n % Line::SIZE == 0)
}

// A line's entry in the record, if it is of that kind.
fn store_initial(initial: &mut [u64; Plan::CELLS], l: Line)
    requires { l.kind ≡ cell_kind → l.second < most_cells }
    ensures { initial.new ≡ initial_with (numbers_in l) initial.old }
{
    if l.is(Kind::Cell) {
        let at = l.second;
        initial[at] = l.fifth;
    }
}

fn store_vote(voted: &mut [bool; Plan::VOTES], l: Line)
    requires { l.kind ≡ vote_kind → (l.second < most_frames) × (l.third < most_cells) }
    ensures { voted.new ≡ voted_with (numbers_in l) voted.old }
{
    if l.is(Kind::Vote) {
        let at = plan::step::vote_place(l.second, l.third);
        voted[at] = true;
    }
}

fn store_actuator(table: &mut [usize; Plan::ACTUATORS], l: Line)
    requires { l.kind ≡ actuator_kind → l.second < most_actuators }
    ensures { table.new ≡ actuators_with (numbers_in l) table.old }
{
    if l.is(Kind::Actuator) {
        let at = l.second;
        table[at] = l.third;
    }
}

// The lines after the header h, of a text whose length and header are right.
fn read_lines(text: &[u8], h: Line) -> Result<PlanRead, Refusal>
    requires { (length_ok (length text.now) ≡ true) × (numbers_at text.now 0 ≡ Some (numbers_in h)) × (is_header (numbers_in h) ≡ true) }
    ensures { result ≡ plan_found text.now }
{
    let lines = text.len() / Line::SIZE;
    let mut plan = plan_line::zero_plan();
    plan.nodes = h.second;
    plan.frames = h.third;
    plan.cells = h.fourth;
    plan.sensors = h.fifth as usize;
    plan.actuators = h.sixth as usize;
    let mut prev = h;
    for i in 1..lines {
        let at = Line::SIZE * i;
        let Some(l) = plan_line::read_line(&text[at..at + Line::SIZE]) else {
            return Err(Refusal::Malformed(i + 1));
        };
        if !plan_line::in_order(h, i - 1, prev, l) {
            return Err(Refusal::OutOfOrder(i + 1));
        }
        if !plan_line::in_range(h, l) {
            return Err(Refusal::OutOfRange(i + 1));
        }
        store_initial(&mut plan.initial, l);
        store_vote(&mut plan.voted, l);
        store_actuator(&mut plan.actuator_cell, l);
        if plan_line::is_task(l.kind) {
            let count = plan.task_count;
            let t = plan_line::task_of(l);
            if count < Plan::TASKS {
                plan.tasks[count] = t;
            }
            plan.task_count = count + 1;
        }
        prev = l;
    }
    if !plan_line::is_last(h, prev) {
        return Err(Refusal::OutOfOrder(lines + 1));
    }
    let period = plan_period::step::period(plan).ok_or(Refusal::Unrecoverable)?;
    Ok(PlanRead { plan, period })
}

// The plan that the call `read` gives, with its recovery period.
pub fn read(text: &[u8]) -> Result<PlanRead, Refusal>
    ensures { result ≡ plan_found text.now }
{
    if !length_ok(text.len()) {
        return Err(Refusal::TextLength);
    }
    let Some(h) = plan_line::read_line(&text[0..Line::SIZE]) else {
        return Err(Refusal::Malformed(1));
    };
    if !plan_line::is_header(h) {
        return Err(Refusal::Header);
    }
    read_lines(text, h)
}

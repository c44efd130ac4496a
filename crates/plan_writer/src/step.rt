// Writing an accepted plan into a buffer that has room for its text.
ghost use Rattle.std.specs.Prelude.{◌≡◌, true, false, cond, [], ◌∷◌, ◌++◌, ◌+◌, ◌*◌, ◌≤◌, length, get_or, drop};
ghost use Rattle.array.specs.Index.{how_many, joined};
ghost use Rattle.column.specs.Column.{column};
ghost use Rattle.column.specs.Row.{row};
ghost use Rattle.plan.specs.Limits.{most_cells, most_frames, most_tasks, most_actuators};
ghost use Rattle.plan.specs.Tables.{task_at, vote_frame, vote_cell};
ghost use Rattle.plan.specs.Accepted.{accepted};
ghost use Rattle.plan_grammar.specs.Line.{widths, line_size, most_text_lines, cell_kind, actuator_kind};
ghost use Rattle.plan_grammar.specs.Written.{op_line, task_line, vote_line, plan_text};
ghost use Rattle.array.specs.Code.{placed};
ghost use Rattle.plan_line.specs.Code.{kind_number, numbers_in};

use plan::{Op, Plan, Task};
use plan_line::{Kind, Line};

fn numbers(kind: Kind, second: usize, third: usize, fourth: usize, fifth: u64, sixth: u64) -> Line
    ensures { numbers_in result ≡ kind_number kind ∷ second ∷ third ∷ fourth ∷ fifth ∷ sixth ∷ [] }
{
    Line {
        kind: kind.number(),
        second,
        third,
        fourth,
        fifth,
        sixth,
    }
}

// The widths of a line's columns: four narrow ones, then two wide ones.
const NARROW: usize = 4;

const WIDE: usize = 20;

// Fills line i of the buffer.
fn write_line(out: &mut [u8], i: usize, l: Line)
    requires { (line_size * i + line_size ≤ length out.old) × (i ≤ most_text_lines) }
    ensures { out.new ≡ placed out.old (line_size * i) (row widths (numbers_in l)) }
{
    let at = Line::SIZE * i;
    column_write::step::put(out, at, NARROW, l.kind as u64);
    column_write::step::put(out, at + Line::SECOND, NARROW, l.second as u64);
    column_write::step::put(out, at + Line::THIRD, NARROW, l.third as u64);
    column_write::step::put(out, at + Line::FOURTH, NARROW, l.fourth as u64);
    column_write::step::put(out, at + Line::FIFTH, WIDE, l.fifth);
    column_write::step::put(out, at + Line::SIXTH, WIDE, l.sixth);
    out[at + Line::FEED] = b'\n';
}

fn write_cells(initial: &[u64; Plan::CELLS], cells: usize, out: &mut [u8], from: usize)
    requires { (cells ≤ most_cells) × (line_size * (from + cells) ≤ length out.old) × (from + cells ≤ most_text_lines) }
    ensures { out.new ≡ placed out.old (line_size * from) (joined (λ c. row widths (cell_kind ∷ c ∷ 0 ∷ 0 ∷ get_or initial.now c 0 ∷ 0 ∷ [])) cells) }
{
    for c in 0..cells {
        write_line(out, from + c, numbers(Kind::Cell, c, 0, 0, initial[c], 0));
    }
}

// The numbers of a task's line.
fn op_line(frame: usize, target: usize, op: Op) -> Line
    ensures { numbers_in result ≡ op_line frame target op }
{
    match op {
        Op::Take(s) => numbers(Kind::Take, frame, target, s, 0, 0),
        Op::Sum(a, b) => numbers(Kind::Sum, frame, target, a, b as u64, 0),
        Op::Diff(a, b) => numbers(Kind::Diff, frame, target, a, b as u64, 0),
        Op::Scale(a, factor) => numbers(Kind::Scale, frame, target, a, pattern::pattern(factor), 0),
        Op::Limit(a, low, high) => numbers(
            Kind::Limit,
            frame,
            target,
            a,
            pattern::pattern(low),
            pattern::pattern(high),
        ),
        Op::Wind(a, law) => numbers(
            Kind::Wind,
            frame,
            target,
            a,
            pattern::pattern(law.rate),
            pattern::pattern(law.cap),
        ),
        Op::Cam(a) => numbers(Kind::Cam, frame, target, a, 0, 0),
    }
}

pub fn task_line(t: Task) -> Line
    ensures { numbers_in result ≡ task_line t }
{
    let op = t.op;
    op_line(t.frame, t.target, op)
}

fn write_tasks(plan: Plan, count: usize, out: &mut [u8], from: usize)
    requires { (count ≤ most_tasks) × (line_size * (from + count) ≤ length out.old) × (from + count ≤ most_text_lines) }
    ensures { out.new ≡ placed out.old (line_size * from) (joined (λ k. row widths (task_line (task_at plan k))) count) }
{
    for k in 0..count {
        let t = plan.tasks[k];
        write_line(out, from + k, task_line(t));
    }
}

fn count_votes(voted: &[bool; Plan::VOTES]) -> usize
    ensures { (result ≡ how_many (λ e. get_or voted.now e false) (most_frames * most_cells)) × (result ≤ most_frames * most_cells) }
{
    let mut count: usize = 0;
    for e in 0..Plan::VOTES {
        if voted[e] {
            count += 1;
        }
    }
    count
}

// The line of an entry of the table of votes.
fn vote_line(entry: usize) -> Line
    ensures { numbers_in result ≡ vote_line (vote_frame entry) (vote_cell entry) }
{
    let frame = plan::step::vote_frame(entry);
    let cell = plan::step::vote_cell(entry);
    numbers(Kind::Vote, frame, cell, 0, 0, 0)
}

// The number of the line after the votes is given.
fn write_votes(voted: &[bool; Plan::VOTES], out: &mut [u8], from: usize) -> usize
    requires { (line_size * (from + how_many (λ e. get_or voted.now e false) (most_frames * most_cells)) ≤ length out.old) × (from + how_many (λ e. get_or voted.now e false) (most_frames * most_cells) ≤ most_text_lines) }
    ensures { (result ≡ from + how_many (λ e. get_or voted.now e false) (most_frames * most_cells)) × (out.new ≡ placed out.old (line_size * from) (joined (λ e. cond (get_or voted.now e false) (row widths (vote_line (vote_frame e) (vote_cell e))) []) (most_frames * most_cells))) }
{
    let mut i = from;
    for e in 0..Plan::VOTES {
        if voted[e] {
            write_line(out, i, vote_line(e));
            i += 1;
        }
    }
    i
}

fn write_actuators(table: &[usize; Plan::ACTUATORS], count: usize, out: &mut [u8], from: usize)
    requires { (count ≤ most_actuators) × (line_size * (from + count) ≤ length out.old) × (from + count ≤ most_text_lines) }
    ensures { out.new ≡ placed out.old (line_size * from) (joined (λ i. row widths (actuator_kind ∷ i ∷ get_or table.now i 0 ∷ 0 ∷ 0 ∷ 0 ∷ [])) count) }
{
    for i in 0..count {
        write_line(out, from + i, numbers(Kind::Actuator, i, table[i], 0, 0, 0));
    }
}

pub fn text_size(plan: Plan) -> usize
    requires { accepted plan ≡ true }
    ensures { result ≡ length (plan_text plan) }
{
    let cells = plan.cells;
    let tasks = plan.task_count;
    let actuators = plan.actuators;
    let votes = count_votes(&plan.voted);
    Line::SIZE * (1 + cells + tasks + votes + actuators)
}

pub fn write(plan: Plan, out: &mut [u8])
    requires { (accepted plan ≡ true) × (length (plan_text plan) ≤ length out.old) }
    ensures { out.new ≡ plan_text plan ++ drop (length (plan_text plan)) out.old }
{
    let cells = plan.cells;
    let tasks = plan.task_count;
    let actuators = plan.actuators;
    write_line(
        out,
        0,
        numbers(
            Kind::Header,
            plan.nodes,
            plan.frames,
            cells,
            plan.sensors as u64,
            actuators as u64,
        ),
    );
    write_cells(&plan.initial, cells, out, 1);
    write_tasks(plan, tasks, out, 1 + cells);
    let next = write_votes(&plan.voted, out, 1 + cells + tasks);
    write_actuators(&plan.actuator_cell, actuators, out, next);
}

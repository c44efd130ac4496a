// A line's numbers, and the rules on one line.
#![tactic(auto)]

ghost use Rattle.std.specs.Prelude.{◌≡◌, ◌+◌, eqb, ltb, option_map};
ghost use Rattle.plan.specs.Limits.{most_tasks};
ghost use Rattle.column.specs.Row.{numbers_shown};
ghost use Rattle.plan_grammar.specs.Line.{widths, is_task};
ghost use Rattle.plan_grammar.specs.Meant.{zero_plan, op_of, task_of};
ghost use Rattle.plan_grammar.specs.Refused.{is_header, after_cells, task_in_order, smaller_vote, vote_in_order, actuator_in_order, in_order, task_zeros, in_range, is_last};
ghost use Rattle.plan_line.specs.Code.{KindOf, kind_number, numbers_in};

use pattern::WindLaw;
use plan::{Op, Plan, Task};

// The kinds of lines: a line's first number says its kind.
#[derive(Clone, Copy, PartialEq, Eq)]
pub enum Kind {
    Header = 0,
    Cell = 1,
    Take = 10,
    Sum = 11,
    Diff = 12,
    Scale = 13,
    Limit = 14,
    Wind = 15,
    Cam = 16,
    Vote = 20,
    Actuator = 30,
}

impl Kind {
    // The kind with this number, if there is one.
    pub fn of(number: usize) -> Option<Kind>
        ensures { KindOf number result }
    {
        match number {
            0 => Some(Kind::Header),
            1 => Some(Kind::Cell),
            10 => Some(Kind::Take),
            11 => Some(Kind::Sum),
            12 => Some(Kind::Diff),
            13 => Some(Kind::Scale),
            14 => Some(Kind::Limit),
            15 => Some(Kind::Wind),
            16 => Some(Kind::Cam),
            20 => Some(Kind::Vote),
            30 => Some(Kind::Actuator),
            _ => None,
        }
    }

    pub fn number(self) -> usize
        ensures { result ≡ kind_number self }
    {
        self as usize
    }
}

// The kind is the number that was read, whether a kind has it or not. The first four columns are indices, the last two may be patterns.
#[derive(Clone, Copy)]
pub struct Line {
    pub kind: usize,
    pub second: usize,
    pub third: usize,
    pub fourth: usize,
    pub fifth: u64,
    pub sixth: u64,
}

impl Line {
    // Where the columns after the first begin, and the line feed.
    pub const SECOND: usize = 4;

    pub const THIRD: usize = 8;

    pub const FOURTH: usize = 12;

    pub const FIFTH: usize = 16;

    pub const SIXTH: usize = 36;

    pub const FEED: usize = 56;

    pub const SIZE: usize = 57;

    // The lines of the longest text, and its bytes.
    pub const MOST: usize = 1 + Plan::CELLS + Plan::TASKS + Plan::VOTES + Plan::ACTUATORS;

    pub const TEXT: usize = Line::SIZE * Line::MOST;

    pub fn is(self, kind: Kind) -> bool
        ensures { result ≡ eqb self.kind (kind_number kind) }
    {
        self.kind == kind.number()
    }
}

pub fn read_line(line: &[u8]) -> Option<Line>
    ensures { option_map numbers_in result ≡ numbers_shown widths line.now }
{
    if line.len() != Line::SIZE {
        return None;
    }
    // The wide columns are read before any return, so that `read_wide` is inlined; their answers are looked at in the columns' order.
    let fifth_shown = column::step::read_wide(line, Line::FIFTH, Line::SIXTH);
    let sixth_shown = column::step::read_wide(line, Line::SIXTH, Line::FEED);
    let kind = column::read(line, 0, Line::SECOND)?;
    let second = column::read(line, Line::SECOND, Line::THIRD)?;
    let third = column::read(line, Line::THIRD, Line::FOURTH)?;
    let fourth = column::read(line, Line::FOURTH, Line::FIFTH)?;
    let fifth = fifth_shown?;
    let sixth = sixth_shown?;
    if line[Line::FEED] != b'\n' {
        return None;
    }
    Some(Line {
        kind: kind as usize,
        second: second as usize,
        third: third as usize,
        fourth: fourth as usize,
        fifth,
        sixth,
    })
}

pub fn is_task(kind: usize) -> bool
    ensures { result ≡ is_task kind }
{
    (Kind::Take.number() <= kind) & (kind <= Kind::Cam.number())
}

pub fn is_header(l: Line) -> bool
    ensures { result ≡ is_header (numbers_in l) }
{
    l.is(Kind::Header)
        & plan_entry::header_ok(
            l.second,
            l.third,
            l.fourth,
            l.fifth as usize,
            l.sixth as usize,
            0,
        )
}

fn after_cells(h: Line, j: usize) -> bool
    ensures { result ≡ after_cells (numbers_in h) j }
{
    j == h.fourth
}

// Whether line j after the header is at most the 64th after the cells.
fn room_for_task(cells: usize, j: usize) -> bool
    ensures { result ≡ ltb j (cells + most_tasks) }
{
    j.saturating_sub(cells) < Plan::TASKS
}

fn task_in_order(h: Line, j: usize, prev: Line, l: Line) -> bool
    ensures { result ≡ task_in_order (numbers_in h) j (numbers_in prev) (numbers_in l) }
{
    room_for_task(h.fourth, j)
        & (after_cells(h, j) | (is_task(prev.kind) & (prev.second <= l.second)))
}

fn smaller_vote(prev: Line, l: Line) -> bool
    ensures { result ≡ smaller_vote (numbers_in prev) (numbers_in l) }
{
    prev.is(Kind::Vote)
        & ((prev.second < l.second) | ((prev.second == l.second) & (prev.third < l.third)))
}

fn vote_in_order(h: Line, j: usize, prev: Line, l: Line) -> bool
    ensures { result ≡ vote_in_order (numbers_in h) j (numbers_in prev) (numbers_in l) }
{
    after_cells(h, j) | (is_task(prev.kind) | smaller_vote(prev, l))
}

// Whether b is the number after a.
fn follows(a: usize, b: usize) -> bool
    ensures { result ≡ eqb (a + 1) b }
{
    b.checked_sub(a) == Some(1)
}

fn actuator_in_order(h: Line, j: usize, prev: Line, l: Line) -> bool
    ensures { result ≡ actuator_in_order (numbers_in h) j (numbers_in prev) (numbers_in l) }
{
    let number = l.second;
    let due = number < h.sixth as usize;
    if number == 0 {
        return due & (after_cells(h, j) | (is_task(prev.kind) | prev.is(Kind::Vote)));
    }
    due & (prev.is(Kind::Actuator) & follows(prev.second, number))
}

pub fn in_order(h: Line, j: usize, prev: Line, l: Line) -> bool
    ensures { result ≡ in_order (numbers_in h) j (numbers_in prev) (numbers_in l) }
{
    let Some(kind) = Kind::of(l.kind) else {
        return false;
    };
    let cells = h.fourth;
    match kind {
        Kind::Cell => (j < cells) & (l.second == j),
        Kind::Take | Kind::Sum | Kind::Diff | Kind::Scale | Kind::Limit | Kind::Wind | Kind::Cam =>
            (cells <= j) & task_in_order(h, j, prev, l),
        Kind::Vote => (cells <= j) & vote_in_order(h, j, prev, l),
        Kind::Actuator => (cells <= j) & actuator_in_order(h, j, prev, l),
        Kind::Header => false,
    }
}

// The record in which no line has put its entry yet.
pub fn zero_plan() -> Plan
    ensures { result ≡ zero_plan }
{
    let unused = Task {
        frame: 0,
        target: 0,
        op: Op::Take(0),
    };
    Plan {
        nodes: 0,
        frames: 0,
        cells: 0,
        sensors: 0,
        actuators: 0,
        initial: [0; Plan::CELLS],
        task_count: 0,
        tasks: [unused; Plan::TASKS],
        voted: [false; Plan::VOTES],
        actuator_cell: [0; Plan::ACTUATORS],
    }
}

// A line of another kind counts as a take.
fn op_of(l: Line) -> Op
    ensures { result ≡ op_of (numbers_in l) }
{
    let a = l.fourth;
    match Kind::of(l.kind).unwrap_or(Kind::Take) {
        Kind::Sum => Op::Sum(a, l.fifth as usize),
        Kind::Diff => Op::Diff(a, l.fifth as usize),
        Kind::Scale => Op::Scale(a, pattern::value(l.fifth)),
        Kind::Limit => Op::Limit(a, pattern::value(l.fifth), pattern::value(l.sixth)),
        Kind::Wind => {
            let rate = pattern::value(l.fifth);
            let cap = pattern::value(l.sixth);
            Op::Wind(a, WindLaw { rate, cap })
        }
        Kind::Cam => Op::Cam(a),
        _ => Op::Take(a),
    }
}

pub fn task_of(l: Line) -> Task
    ensures { result ≡ task_of (numbers_in l) }
{
    let op = op_of(l);
    Task {
        frame: l.second,
        target: l.third,
        op,
    }
}

pub fn task_zeros(l: Line) -> bool
    ensures { result ≡ task_zeros (numbers_in l) }
{
    let Some(kind) = Kind::of(l.kind) else {
        return true;
    };
    match kind {
        Kind::Take | Kind::Cam => (l.fifth == 0) & (l.sixth == 0),
        Kind::Sum | Kind::Diff | Kind::Scale => l.sixth == 0,
        _ => true,
    }
}

pub fn in_range(h: Line, l: Line) -> bool
    ensures { result ≡ in_range (numbers_in h) (numbers_in l) }
{
    let cells = h.fourth;
    let zeros = (l.fourth == 0) & (l.fifth == 0) & (l.sixth == 0);
    // Said of the lines that `in_order` refuses too.
    let actuator_ok = (l.third < cells) & zeros;
    let Some(kind) = Kind::of(l.kind) else {
        return actuator_ok;
    };
    match kind {
        Kind::Cell => (l.third == 0) & (l.fourth == 0) & (l.sixth == 0),
        Kind::Take | Kind::Sum | Kind::Diff | Kind::Scale | Kind::Limit | Kind::Wind | Kind::Cam =>
            plan_entry::task_ok(h.third, cells, h.fifth as usize, task_of(l)) & task_zeros(l),
        Kind::Vote => (l.second < h.third) & (l.third < cells) & zeros,
        Kind::Header | Kind::Actuator => actuator_ok,
    }
}

pub fn is_last(h: Line, l: Line) -> bool
    ensures { result ≡ is_last (numbers_in h) (numbers_in l) }
{
    l.is(Kind::Actuator) & follows(l.second, h.sixth as usize)
}

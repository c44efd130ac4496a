// A plan made of words, for any words, and the words of an accepted plan.
ghost use Rattle.std.specs.Prelude.{◌≡◌, Bool, true, false, cond, ◌&&◌, List, [], ◌∷◌, ℕ, ◌+◌, ◌*◌, ◌/◌, ◌%◌, ◌<◌, ◌≤◌, length, get_or, set, None, Some};
ghost use Rattle.array.specs.Index.{all_below, fill, joined, from};
ghost use Rattle.array.specs.Bit.{bit};
ghost use Rattle.plan.specs.Limits.{most_frames, most_cells, most_tasks, most_actuators};
ghost use Rattle.plan.specs.Tables.{task_at, vote_frame, vote_cell, vote_place};
ghost use Rattle.plan.specs.Accepted.{accepted};
ghost use Rattle.plan_grammar.specs.Line.{is_task};
ghost use Rattle.plan_grammar.specs.Meant.{task_of};
ghost use Rattle.plan_grammar.specs.Refused.{task_zeros};
ghost use Rattle.plan_grammar.specs.Written.{task_line};
ghost use Rattle.plan_line.specs.Code.{numbers_in};
ghost use Rattle.plan_words.specs.Words.{initial_at, actuators_at, task_size, plan_size, number_of_bits, plan_words, task_in, vote_in, vote_words, plan_of_words};

use pattern::WindLaw;
use plan::{Op, Plan, Task};
use plan_line::{Kind, Line};

// Where the parts begin: the counts are before the initial patterns.
const INITIAL: usize = 6;

const TASKS: usize = INITIAL + Plan::CELLS;

// The words of one task.
const TASK: usize = 6;

const VOTES: usize = TASKS + TASK * Plan::TASKS;

const ACTUATORS: usize = VOTES + Plan::FRAMES;

pub const SIZE: usize = ACTUATORS + Plan::ACTUATORS;

// ---- from words to a plan

// The numbers of task k.
fn task(words: &[u64], k: usize) -> Line
    requires { (length words.now ≡ plan_size) × (k < most_tasks) }
    ensures { numbers_in result ≡ task_in words.now k }
{
    let at = TASKS + TASK * k;
    Line {
        kind: words[at] as usize,
        second: words[at + 1] as usize,
        third: words[at + 2] as usize,
        fourth: words[at + 3] as usize,
        fifth: words[at + 4],
        sixth: words[at + 5],
    }
}

fn task_with(l: Line, op: Op) -> Task
    ensures { result ≡ record { frame = l.second; target = l.third; op = op } }
{
    Task {
        frame: l.second,
        target: l.third,
        op,
    }
}

// The task of its numbers, kind and zeros tested in one way through: this is a third of what a plan costs. A `match` on `Kind::of` would test first whether there is a kind.
fn task_of(l: Line) -> Option<Task>
    ensures { result ≡ cond (is_task l.kind && task_zeros (numbers_in l)) (Some (task_of (numbers_in l))) None }
{
    let a = l.fourth;
    if l.is(Kind::Limit) {
        return Some(task_with(
            l,
            Op::Limit(a, pattern::value(l.fifth), pattern::value(l.sixth)),
        ));
    }
    if l.is(Kind::Wind) {
        let rate = pattern::value(l.fifth);
        let cap = pattern::value(l.sixth);
        return Some(task_with(l, Op::Wind(a, WindLaw { rate, cap })));
    }
    if l.sixth != 0 {
        return None;
    }
    if l.is(Kind::Sum) {
        return Some(task_with(l, Op::Sum(a, l.fifth as usize)));
    }
    if l.is(Kind::Diff) {
        return Some(task_with(l, Op::Diff(a, l.fifth as usize)));
    }
    if l.is(Kind::Scale) {
        return Some(task_with(l, Op::Scale(a, pattern::value(l.fifth))));
    }
    if l.fifth != 0 {
        return None;
    }
    if l.is(Kind::Take) {
        return Some(task_with(l, Op::Take(a)));
    }
    if !l.is(Kind::Cam) {
        return None;
    }
    Some(task_with(l, Op::Cam(a)))
}

fn votes_ok(words: &[u64]) -> bool
    requires { length words.now ≡ plan_size }
    ensures { result ≡ all_below (vote_words words.now) most_frames }
{
    for g in 0..Plan::FRAMES {
        if words[VOTES + g] >> Plan::CELLS != 0 {
            return false;
        }
    }
    true
}

// Four votes at once, from a table of the bits of 0 to 15: bit by bit they cost three times as much.
fn four_votes(four: usize, table: &[bool; 64], at: usize, voted: &mut [bool; Plan::VOTES])
    requires { (four < 16) × (at + 4 ≤ most_frames * most_cells) × ((i : ℕ) → i < 64 → get_or table.now i false ≡ bit (i / 4) (i % 4)) }
    ensures { voted.new ≡ set (set (set (set voted.old at (bit four 0)) (at + 1) (bit four 1)) (at + 2) (bit four 2)) (at + 3) (bit four 3) }
{
    let from = 4 * four;
    voted[at] = table[from];
    voted[at + 1] = table[from + 1];
    voted[at + 2] = table[from + 2];
    voted[at + 3] = table[from + 3];
}

// The votes of a frame, behind those of the frames before it.
fn frame_votes(word: u64, table: &[bool; 64], frame: usize, voted: &mut [bool; Plan::VOTES])
    requires { (frame < most_frames) × ((i : ℕ) → i < 64 → get_or table.now i false ≡ bit (i / 4) (i % 4)) }
    ensures { (q : ℕ → Bool) (l : List Bool) → voted.old ≡ fill q (vote_place frame 0) l → ((c : ℕ) → c < most_cells → q (vote_place frame c) ≡ bit word c) → voted.new ≡ fill q (vote_place frame most_cells) l }
{
    let first = plan::step::vote_place(frame, 0);
    for k in 0..Plan::CELLS / 4 {
        let c = 4 * k;
        four_votes((word >> c) as usize % 16, table, first + c, voted);
    }
}

fn votes_in(words: &[u64], voted: &mut [bool; Plan::VOTES])
    requires { length words.now ≡ plan_size }
    ensures { voted.new ≡ fill (λ e. bit (vote_in words.now (vote_frame e)) (vote_cell e)) (most_frames * most_cells) voted.old }
{
    let table = [
        false, false, false, false, true, false, false, false, false, true, false, false, true,
        true, false, false, false, false, true, false, true, false, true, false, false, true, true,
        false, true, true, true, false, false, false, false, true, true, false, false, true, false,
        true, false, true, true, true, false, true, false, false, true, true, true, false, true,
        true, false, true, true, true, true, true, true, true,
    ];
    for g in 0..Plan::FRAMES {
        frame_votes(words[VOTES + g], &table, g, voted);
    }
}

fn actuators_in(words: &[u64], table: &mut [usize; Plan::ACTUATORS])
    requires { length words.now ≡ plan_size }
    ensures { table.new ≡ fill (λ i. get_or words.now (actuators_at + i) 0) most_actuators table.old }
{
    for i in 0..Plan::ACTUATORS {
        table[i] = words[ACTUATORS + i] as usize;
    }
}

pub fn plan(words: &[u64]) -> Plan
    ensures { result ≡ plan_of_words words.now }
{
    if words.len() != SIZE {
        return plan_line::zero_plan();
    }
    if !votes_ok(words) {
        return plan_line::zero_plan();
    }
    let mut initial = [0u64; Plan::CELLS];
    let mut voted = [false; Plan::VOTES];
    let mut actuator_cell = [0usize; Plan::ACTUATORS];
    array::step::copy(&words[INITIAL..TASKS], &mut initial);
    votes_in(words, &mut voted);
    actuators_in(words, &mut actuator_cell);
    let unused = Task {
        frame: 0,
        target: 0,
        op: Op::Take(0),
    };
    let mut tasks = [unused; Plan::TASKS];
    for k in 0..Plan::TASKS {
        let Some(t) = task_of(task(words, k)) else {
            return plan_line::zero_plan();
        };
        tasks[k] = t;
    }
    Plan {
        nodes: words[0] as usize,
        frames: words[1] as usize,
        cells: words[2] as usize,
        sensors: words[3] as usize,
        actuators: words[4] as usize,
        initial,
        task_count: words[5] as usize,
        tasks,
        voted,
        actuator_cell,
    }
}

// ---- from a plan to words

fn put_counts(plan: Plan, out: &mut [u64])
    requires { length out.old ≡ initial_at }
    ensures { out.new ≡ plan.nodes ∷ plan.frames ∷ plan.cells ∷ plan.sensors ∷ plan.actuators ∷ plan.task_count ∷ [] }
{
    out[0] = plan.nodes as u64;
    out[1] = plan.frames as u64;
    out[2] = plan.cells as u64;
    out[3] = plan.sensors as u64;
    out[4] = plan.actuators as u64;
    out[5] = plan.task_count as u64;
}

fn put_task(l: Line, out: &mut [u64])
    requires { length out.old ≡ task_size }
    ensures { out.new ≡ numbers_in l }
{
    out[0] = l.kind as u64;
    out[1] = l.second as u64;
    out[2] = l.third as u64;
    out[3] = l.fourth as u64;
    out[4] = l.fifth;
    out[5] = l.sixth;
}

fn put_tasks(plan: Plan, out: &mut [u64])
    requires { length out.old ≡ task_size * most_tasks }
    ensures { out.new ≡ joined (λ k. task_line (task_at plan k)) most_tasks }
{
    for k in 0..Plan::TASKS {
        let t = plan.tasks[k];
        let at = TASK * k;
        put_task(plan_writer::step::task_line(t), &mut out[at..at + TASK]);
    }
}

// Bit c says whether cell c is voted in a frame.
fn vote_word(voted: &[bool; Plan::VOTES], frame: usize) -> u64
    requires { frame < most_frames }
    ensures { result ≡ number_of_bits (λ c. get_or voted.now (vote_place frame c) false) most_cells }
{
    let mut word: u64 = 0;
    for c in 0..Plan::CELLS {
        if plan::step::is_voted(voted, frame, c) {
            word += 1 << c;
        }
    }
    word
}

fn put_votes(voted: &[bool; Plan::VOTES], out: &mut [u64])
    requires { length out.old ≡ most_frames }
    ensures { out.new ≡ joined (λ g. number_of_bits (λ c. get_or voted.now (vote_place g c) false) most_cells ∷ []) most_frames }
{
    for g in 0..Plan::FRAMES {
        out[g] = vote_word(voted, g);
    }
}

fn put_actuators(table: &[usize; Plan::ACTUATORS], out: &mut [u64])
    requires { length out.old ≡ most_actuators }
    ensures { out.new ≡ from 0 table.now 0 most_actuators }
{
    for i in 0..Plan::ACTUATORS {
        out[i] = table[i] as u64;
    }
}

pub fn put(plan: Plan, words: &mut [u64])
    requires { (accepted plan ≡ true) × (length words.old ≡ plan_size) }
    ensures { words.new ≡ plan_words plan }
{
    put_counts(plan, &mut words[0..INITIAL]);
    array::step::copy(&plan.initial, &mut words[INITIAL..TASKS]);
    put_tasks(plan, &mut words[TASKS..VOTES]);
    put_votes(&plan.voted, &mut words[VOTES..ACTUATORS]);
    put_actuators(&plan.actuator_cell, &mut words[ACTUATORS..SIZE]);
}

pub fn words(plan: Plan) -> [u64; SIZE]
    requires { accepted plan ≡ true }
    ensures { result ≡ plan_words plan }
{
    let mut words = [0u64; SIZE];
    put(plan, &mut words);
    words
}

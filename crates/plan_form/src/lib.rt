// Which records are of form: 7 but for the recovery period.
#![tactic(auto)]

ghost use Rattle.std.specs.Prelude.{◌≡◌, false, not, cond, ◌&&◌, ◌||◌, ◌<◌, get_or, eqb, ltb};
ghost use Rattle.array.specs.Index.{all_below};
ghost use Rattle.plan.specs.Limits.{most_frames, most_cells, most_actuators, most_tasks};
ghost use Rattle.plan.specs.Tables.{vote_place};
ghost use Rattle.plan.specs.Accepted.{task_entry, well_formed};

use plan::Plan;

fn tasks_ok(p: Plan) -> bool
    ensures { result ≡ all_below (task_entry p) most_tasks }
{
    let frames = p.frames;
    let cells = p.cells;
    let sensors = p.sensors;
    let count = p.task_count;
    let mut last: usize = 0;
    for k in 0..Plan::TASKS {
        let t = p.tasks[k];
        if !plan_entry::entry_ok(k < count, last, frames, cells, sensors, t) {
            return false;
        }
        last = t.frame;
    }
    true
}

fn initial_ok(initial: &[u64; Plan::CELLS], cells: usize) -> bool
    ensures { result ≡ all_below (λ c. ltb c cells || eqb (get_or initial.now c 0) 0) most_cells }
{
    for c in 0..Plan::CELLS {
        if !((c < cells) | (initial[c] == 0)) {
            return false;
        }
    }
    true
}

// Whether a row of the table of votes has none from a cell on.
fn row_ok(voted: &[bool; Plan::VOTES], frame: usize, from: usize) -> bool
    requires { frame < most_frames }
    ensures { result ≡ all_below (λ c. not (get_or voted.now (vote_place frame c) false) || ltb c from) most_cells }
{
    for c in from..Plan::CELLS {
        if voted[plan::step::vote_place(frame, c)] {
            return false;
        }
    }
    true
}

fn votes_ok(voted: &[bool; Plan::VOTES], frames: usize, cells: usize) -> bool
    ensures { result ≡ all_below (λ g. all_below (λ c. not (get_or voted.now (vote_place g c) false) || (ltb g frames && ltb c cells)) most_cells) most_frames }
{
    for g in 0..Plan::FRAMES {
        let from = if g < frames { cells } else { 0 };
        if !row_ok(voted, g, from) {
            return false;
        }
    }
    true
}

fn actuator_ok(used: bool, cell: usize, cells: usize) -> bool
    ensures { result ≡ cond used (ltb cell cells) (eqb cell 0) }
{
    if used {
        return cell < cells;
    }
    cell == 0
}

fn actuators_ok(table: &[usize; Plan::ACTUATORS], actuators: usize, cells: usize) -> bool
    ensures { result ≡ all_below (λ i. cond (ltb i actuators) (ltb (get_or table.now i 0) cells) (eqb (get_or table.now i 0) 0)) most_actuators }
{
    for i in 0..Plan::ACTUATORS {
        if !actuator_ok(i < actuators, table[i], cells) {
            return false;
        }
    }
    true
}

pub fn well_formed(p: Plan) -> bool
    ensures { result ≡ well_formed p }
{
    let nodes = p.nodes;
    let frames = p.frames;
    let cells = p.cells;
    let sensors = p.sensors;
    let actuators = p.actuators;
    let tasks = p.task_count;
    if !plan_entry::header_ok(nodes, frames, cells, sensors, actuators, tasks) {
        return false;
    }
    if !tasks_ok(p) {
        return false;
    }
    if !initial_ok(&p.initial, cells) {
        return false;
    }
    if !votes_ok(&p.voted, frames, cells) {
        return false;
    }
    actuators_ok(&p.actuator_cell, actuators, cells)
}

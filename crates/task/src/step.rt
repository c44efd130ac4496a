// A task on the cells of a memory. The cam's table is lent: `cam::table` makes it, once for many tasks.
ghost use Rattle.std.specs.Prelude.{◌≡◌, true, cond, ◌<◌, eqb, length, get_or, set};
ghost use Rattle.plan.specs.Limits.{most_cells};
ghost use Rattle.plan.specs.Accepted.{op_ok};
ghost use Rattle.cam.specs.Cam.{cam_table};
ghost use Rattle.task.specs.Task.{op_value};

use plan::{Op, Plan, Task};

fn entry(l: &[u64], i: usize) -> u64
    requires { i < length l.now }
    ensures { result ≡ get_or l.now i 0 }
{
    l[i]
}

// What a task reads is in range, so nothing is tested here.
fn op_value(op: Op, target: usize, sensors: &[u64], cells: &[u64], cams: &[u32; cam::SIZE]) -> u64
    requires { (length cells.now ≡ most_cells) × (op_ok most_cells (length sensors.now) target op ≡ true) × (cams.now ≡ cam_table) }
    ensures { result ≡ op_value op target sensors.now cells.now }
{
    match op {
        Op::Take(s) => entry(sensors, s),
        Op::Sum(a, b) => pattern::sum(entry(cells, a), entry(cells, b)),
        Op::Diff(a, b) => pattern::diff(entry(cells, a), entry(cells, b)),
        Op::Scale(a, factor) => pattern::scale(factor, entry(cells, a)),
        Op::Limit(a, low, high) => limit::limit(entry(cells, a), low, high),
        Op::Wind(a, law) => limit::wind(entry(cells, target), entry(cells, a), law),
        Op::Cam(a) => cam::step::cam(cams, entry(cells, a)),
    }
}

// A memory's cells, in an array or in a part of one.
pub fn run_task(cells: &mut [u64], t: Task, sensors: &[u64], cams: &[u32; cam::SIZE])
    requires { (length cells.old ≡ most_cells) × (t.target < most_cells) × (op_ok most_cells (length sensors.now) t.target t.op ≡ true) × (cams.now ≡ cam_table) }
    ensures { cells.new ≡ set cells.old t.target (op_value t.op t.target sensors.now cells.old) }
{
    let op = t.op;
    let target = t.target;
    let v = op_value(op, target, sensors, cells, cams);
    cells[target] = v;
}

// Where the tasks of frame g may begin: after `skipped`, which are not of frame `last`, where that is g.
pub fn begin(last: usize, skipped: usize, g: usize) -> usize
    ensures { result ≡ cond (eqb g last) skipped 0 }
{
    if g == last { skipped } else { 0 }
}

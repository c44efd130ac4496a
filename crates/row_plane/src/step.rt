// What the nodes put out and the plane hands on, for callers that know the lengths to be right.
ghost use Rattle.std.specs.Prelude.{◌≡◌, ℕ, ◌<◌, get_or};
ghost use Rattle.array.specs.Index.{fill as filled_with};
ghost use Rattle.plan.specs.Limits.{most_cells};
ghost use Rattle.ballot.specs.Code.{Told};
ghost use Rattle.row_plane.specs.Code.{put_from, handed_from};

use faults::Faults;
use plan::Plan;
use rows::RowWords;
use system::System;

// What the nodes put out for an actuator, whose cell is `cell`.
fn put_out(
    faults: &Faults,
    cells: &[u64; RowWords::WORDS],
    cell: usize,
    a: usize,
) -> [u64; System::NODES]
    requires { (cell < most_cells) × (a < faults.now.sizes.actuators) }
    ensures { Told (put_from faults.now.sizes faults.now.mask faults.now.bytes.now cells.now cell a) faults.now.sizes.nodes result }
{
    let s = faults.sizes;
    let nodes = s.nodes;
    let mut values = [0u64; System::NODES];
    for j in 0..nodes {
        if counts::step::is_bad(faults.mask, j) {
            values[j] = array::step::read_be8(faults.bytes, faults::step::setpoint_at(s, j, a));
        } else {
            values[j] = cells[Plan::CELLS * (j + 1) + cell];
        }
    }
    values
}

// What the plane hands on takes the place of what it remembers.
pub fn hand_on(
    table: &[usize; Plan::ACTUATORS],
    faults: &Faults,
    cells: &[u64; RowWords::WORDS],
    seen: &mut [u64; System::ACTUATORS],
)
    requires { (a : ℕ) → a < faults.now.sizes.actuators → get_or table.now a 0 < most_cells }
    ensures { seen.new ≡ filled_with (handed_from table.now faults.now.sizes faults.now.mask faults.now.bytes.now cells.now seen.old) faults.now.sizes.actuators seen.old }
{
    let actuators = faults.sizes.actuators;
    let nodes = faults.sizes.nodes;
    for a in 0..actuators {
        let cell = table[a];
        let values = put_out(faults, cells, cell, a);
        let remembered = seen[a];
        seen[a] = ballot::step::plane(&values, nodes, remembered);
    }
}

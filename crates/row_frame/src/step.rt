// A frame of the whole system on rows. Row 0 is the single controller's, row j + 1 node j's.
ghost use Rattle.std.specs.Prelude.{◌≡◌, true, cond, ℕ, ◌+◌, ◌<◌, ◌≤◌, ◌^◌, eqb, length, get_or, unwrap_or};
ghost use Rattle.array.specs.Index.{fill as filled_with, least};
ghost use Rattle.array.specs.Word.{be};
ghost use Rattle.plan.specs.Limits.{most_frames, most_cells};
ghost use Rattle.plan.specs.Accepted.{accepted};
ghost use Rattle.plan.specs.Sizes.{sizes_of};
ghost use Rattle.cam.specs.Cam.{cam_table};
ghost use Rattle.memory.specs.Size.{pattern_size, cell_at};
ghost use Rattle.memory.specs.Node.{computed};
ghost use Rattle.system.specs.Counts.{good_after};
ghost use Rattle.system.specs.Frame.{system_after, frame_agreement};
ghost use Rattle.rows.specs.Code.{memory_in, Rows, Through};
ghost use Rattle.row_word.specs.Code.{is_good};
ghost use Rattle.row_vote.specs.Code.{row_agreement};
ghost use Rattle.row_plane.specs.Code.{handed_from};
ghost use Rattle.row_frame.specs.Code.{spoiled, closed_row};

use faults::Faults;
use plan::Plan;
use rows::RowWords;
use system::System;

// ---- bad nodes

fn fault_row(row: &mut [u64], count: usize, faults: &[u8], at: usize)
    requires { (count ≤ most_cells) × (count ≤ length row.old) × (at + cell_at count ≤ length faults.now) }
    ensures { row.new ≡ filled_with (λ c. be pattern_size faults.now (at + cell_at c)) count row.old }
{
    for c in 0..count {
        row[c] = array::step::read_be8(faults, at + memory::step::cell_at(c));
    }
}

// The memories that the faults leave.
fn spoil(faults: &Faults, rows: &mut RowWords)
    ensures { Through (faults.now.sizes.nodes + 1) (spoiled faults.now.sizes faults.now.mask faults.now.bytes.now) rows.old.counters rows.old.cells rows.new.counters rows.new.cells × (rows.new.good ≡ rows.old.good) × (rows.new.seen ≡ rows.old.seen) }
{
    let s = faults.sizes;
    let bytes = faults.bytes;
    let nodes = s.nodes;
    let count = s.cells;
    for j in 0..nodes {
        if counts::step::is_bad(faults.mask, j) {
            let from = faults::step::part_at(s, j);
            let at = Plan::CELLS * (j + 1);
            rows.counters[j + 1] = array::step::read_be2(bytes, from);
            fault_row(&mut rows.cells[at..at + Plan::CELLS], count, bytes, from);
        }
    }
}

// ---- the frame

// What is sent of a cell is a word. Nothing is done: the fact is that of the type.
fn are_words(cells: &[u64])
    ensures { (i : ℕ) → get_or cells.now i 0 < 2 ^ 64 }
{}

// A frame after its tasks: vote, faults, plane, good counts. It gives the frame's agreement.
fn close(
    voted: &[bool; Plan::VOTES],
    table: &[usize; Plan::ACTUATORS],
    faults: &Faults,
    rows: &mut RowWords,
) -> usize
    requires { (0 < faults.now.sizes.nodes) × (0 < faults.now.sizes.frames) × (faults.now.sizes.frames ≤ most_frames) × (faults.now.sizes.period < 65536) × ((a : ℕ) → a < faults.now.sizes.actuators → get_or table.now a 0 < most_cells) }
    ensures { Through (faults.now.sizes.nodes + 1) (closed_row voted.now faults.now.sizes faults.now.mask faults.now.bytes.now rows.old.counters rows.old.cells) rows.old.counters rows.old.cells rows.new.counters rows.new.cells × (rows.new.seen ≡ filled_with (handed_from table.now faults.now.sizes faults.now.mask faults.now.bytes.now rows.new.cells rows.old.seen) faults.now.sizes.actuators rows.old.seen) × (rows.new.good ≡ filled_with (good_after faults.now.sizes.period faults.now.mask rows.old.good) faults.now.sizes.nodes rows.old.good) × ((i : ℕ) → get_or rows.old.cells i 0 < 2 ^ 64) × (result ≡ unwrap_or (least (is_good faults.now.mask) (row_agreement voted.now faults.now.sizes faults.now.mask faults.now.bytes.now rows.old.counters rows.old.cells) faults.now.sizes.nodes) 0) }
{
    let s = faults.sizes;
    are_words(&rows.cells);
    let agreement = row_vote::step::vote(voted, faults, rows);
    spoil(faults, rows);
    row_plane::step::hand_on(table, faults, &rows.cells, &mut rows.seen);
    counts::step::counts(&mut rows.good, s.nodes, faults.mask, s.period);
    agreement
}

// The frame of the system that the rows hold, from row `first` on: the single controller's row 0 is computed only where first is 0. Tasks stand by
// frame, so a row in the frame of the one before it begins where that one did. It gives the frame's agreement.
pub fn frame(
    plan: Plan,
    first: usize,
    sensors: &[u64],
    cams: &[u32; cam::SIZE],
    faults: &Faults,
    rows: &mut RowWords,
) -> usize
    requires { (accepted plan ≡ true) × (faults.now.sizes ≡ sizes_of plan) × (first ≤ 1) × (length sensors.now ≡ plan.sensors) × (cams.now ≡ cam_table) }
    ensures { ((sys : System) → Rows sys rows.old.counters rows.old.cells rows.old.good rows.old.seen → Rows (system_after plan sys sensors.now faults.now.mask faults.now.bytes.now) rows.new.counters rows.new.cells rows.new.good rows.new.seen × (result ≡ frame_agreement plan sys sensors.now faults.now.mask faults.now.bytes.now)) × (memory_in rows.new.counters rows.new.cells 0 ≡ cond (eqb first 0) (computed plan sensors.now (memory_in rows.old.counters rows.old.cells 0)) (memory_in rows.old.counters rows.old.cells 0)) }
{
    let end = plan.nodes + 1;
    let frames = plan.frames;
    let count = plan.task_count;
    let mut last: usize = 0;
    let mut skipped: usize = 0;
    for r in first..end {
        let g = rows.counters[r] as usize % frames;
        let at = Plan::CELLS * r;
        skipped = task::step::begin(last, skipped, g);
        last = g;
        for k in skipped..count {
            let frame = plan.tasks[k].frame;
            if g < frame {
                break;
            }
            if frame == g {
                let t = plan.tasks[k];
                task::step::run_task(&mut rows.cells[at..at + Plan::CELLS], t, sensors, cams);
            } else {
                skipped = k;
            }
        }
        rows.counters[r] = ((g + 1) % frames) as u16;
    }
    close(&plan.voted, &plan.actuator_cell, faults, rows)
}

// How the table of votes is laid out: the entry of a frame and a cell, and the frame and the cell of an entry.
ghost use Rattle.std.specs.Prelude.{◌≡◌, false, ◌<◌, get_or};
ghost use Rattle.plan.specs.Limits.{most_frames, most_cells};
ghost use Rattle.plan.specs.Tables.{vote_place, vote_frame, vote_cell};

use super::Plan;

pub fn vote_place(frame: usize, cell: usize) -> usize
    requires { (frame < most_frames) × (cell < most_cells) }
    ensures { result ≡ vote_place frame cell }
{
    Plan::CELLS * frame + cell
}

// Whether a cell is voted in a frame.
pub fn is_voted(voted: &[bool; Plan::VOTES], frame: usize, cell: usize) -> bool
    requires { (frame < most_frames) × (cell < most_cells) }
    ensures { result ≡ get_or voted.now (vote_place frame cell) false }
{
    voted[vote_place(frame, cell)]
}

pub fn vote_frame(entry: usize) -> usize
    ensures { result ≡ vote_frame entry }
{
    entry / Plan::CELLS
}

pub fn vote_cell(entry: usize) -> usize
    ensures { result ≡ vote_cell entry }
{
    entry % Plan::CELLS
}

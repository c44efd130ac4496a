// A system on rows of words, that every step is lent.
#![tactic(auto)]

ghost use Rattle.std.specs.Prelude.{◌≡◌, length};
ghost use Rattle.rows.specs.Code.{row_count, word_count};

use plan::Plan;
use system::System;

pub mod step;

// A counter and a row of words for each memory: row 0 is the single controller's, row j + 1 node j's. Beside them stand the good counts, and the values last
// handed on.
#[derive(Clone, Copy)]
pub struct RowWords {
    pub counters: [u16; RowWords::ROWS],
    pub cells: [u64; RowWords::WORDS],
    pub good: [u16; System::NODES],
    pub seen: [u64; System::ACTUATORS],
    pub ghost counters_size: { length counters ≡ row_count },
    pub ghost cells_size: { length cells ≡ word_count },
}

impl RowWords {
    // A row for each node, and one for the single controller.
    pub const ROWS: usize = System::NODES + 1;

    // The words of all rows.
    pub const WORDS: usize = RowWords::ROWS * Plan::CELLS;
}

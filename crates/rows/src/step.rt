// The steps on rows: a record taken apart into rows and put together again, and the rows that equal the first.
ghost use Rattle.std.specs.Prelude.{◌≡◌, ◌+◌, ◌<◌, ◌≤◌};
ghost use Rattle.array.specs.Index.{how_many};
ghost use Rattle.plan.specs.Limits.{most_nodes, most_cells};
ghost use Rattle.rows.specs.Code.{row_count, word_place, memory_in, Rows, Stored, same_row};

use super::RowWords;
use memory::Memory;
use plan::Plan;
use system::{Seen, System};

// Where a word of a row stands.
pub fn word_place(r: usize, c: usize) -> usize
    requires { (r < row_count) × (c ≤ most_cells) }
    ensures { result ≡ word_place r c }
{
    Plan::CELLS * r + c
}

impl RowWords {
    // ---- from a record to rows, and back

    pub fn put_memory(&mut self, r: usize, m: Memory)
        requires { r < row_count }
        ensures { Stored self.old.counters self.old.cells r m self.new.counters self.new.cells × (self.new.good ≡ self.old.good) × (self.new.seen ≡ self.old.seen) }
    {
        let at = Plan::CELLS * r;
        let values = m.cells;
        self.counters[r] = m.counter;
        array::step::copy(&values, &mut self.cells[at..at + Plan::CELLS]);
    }

    // The rows of a system.
    pub fn of(system: System) -> RowWords
        ensures { Rows system result.counters result.cells result.good result.seen }
    {
        let mut rows = RowWords {
            counters: [0; RowWords::ROWS],
            cells: [0; RowWords::WORDS],
            good: system.good,
            seen: system.seen.handed,
        };
        for j in 0..System::NODES {
            let m = system.memories[j];
            rows.put_memory(j + 1, m);
        }
        rows
    }

    // The rows of a system and of a single controller.
    pub fn beside(system: System, single: Memory) -> RowWords
        ensures { Rows system result.counters result.cells result.good result.seen × (memory_in result.counters result.cells 0 ≡ single) }
    {
        let mut rows = RowWords::of(system);
        rows.put_memory(0, single);
        rows
    }

    pub fn memory(&self, r: usize) -> Memory
        requires { r < row_count }
        ensures { result ≡ memory_in self.now.counters self.now.cells r }
    {
        let at = Plan::CELLS * r;
        let mut values = [0u64; Plan::CELLS];
        array::step::copy(&self.cells[at..at + Plan::CELLS], &mut values);
        Memory {
            counter: self.counters[r],
            cells: values,
        }
    }

    pub fn system(&self) -> System
        ensures { (sys : System) → Rows sys self.now.counters self.now.cells self.now.good self.now.seen → result ≡ sys }
    {
        let first = self.memory(0);
        let mut memories = [first; System::NODES];
        for j in 0..System::NODES {
            let m = self.memory(j + 1);
            memories[j] = m;
        }
        System {
            memories,
            good: self.good,
            seen: Seen { handed: self.seen },
        }
    }

    // ---- the nodes whose memory equals the single controller's

    // The first `width` cells are compared: those of the plan.
    fn same_row(&self, width: usize, r: usize) -> bool
        requires { (width ≤ most_cells) × (r < row_count) }
        ensures { result ≡ same_row width self.now.counters self.now.cells r }
    {
        if self.counters[r] != self.counters[0] {
            return false;
        }
        let at = Plan::CELLS * r;
        for c in 0..width {
            if self.cells[at + c] != self.cells[c] {
                return false;
            }
        }
        true
    }

    pub fn equal(&self, nodes: usize, width: usize) -> usize
        requires { (nodes ≤ most_nodes) × (width ≤ most_cells) }
        ensures { result ≡ how_many (λ j. same_row width self.now.counters self.now.cells (j + 1)) nodes }
    {
        let mut same: usize = 0;
        for j in 0..nodes {
            if self.same_row(width, j + 1) {
                same += 1;
            }
        }
        same
    }
}

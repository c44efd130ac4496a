// From words to records and back, for any words. A word past the end of a slice reads as 0, and none is stored there: so nothing has to be known of a slice's length, which is lost
// where an array is lent as a slice. The compiler knows it and makes no test.
ghost use Rattle.std.specs.Prelude.{◌≡◌, ◌+◌, ◌%◌, ◌<◌, ◌≤◌, min, length, get_or, set, Some};
ghost use Rattle.array.specs.Index.{from};
ghost use Rattle.plan.specs.Limits.{most_nodes, most_cells, most_actuators};
ghost use Rattle.system_words.specs.Words.{code_with, memory_at, stored_from, with_memory, handed_at, system_count, system_of_words, with_memories, with_system};

use answer::Refusal;
use array::step::entry_or;
use memory::Memory;
use plan::Plan;
use system::{Seen, System};

// The words of a memory; where the good counts of a system and its remembered values stand; the words of a system.
pub const MEMORY: usize = 1 + Plan::CELLS;

pub const GOOD: usize = MEMORY * System::NODES;

pub const HANDED: usize = GOOD + System::NODES;

pub const SYSTEM: usize = HANDED + System::ACTUATORS;

// What a refused call returns; one that is not refused returns 0.
pub fn code(refusal: Refusal) -> u64
    ensures { result ≡ code_with (Some refusal) }
{
    refusal.number() as u64 + ((refusal.line() as u64) << 8)
}

pub fn put_word(words: &mut [u64], i: usize, x: u64)
    ensures { words.new ≡ set words.old i x }
{
    if i < words.len() {
        words[i] = x;
    }
}

// ---- a memory, whose words begin at a place

fn low(x: u64) -> u16
    ensures { result ≡ x % 65536 }
{
    (x % 65536) as u16
}

// The 32 patterns from a place, copied where the words have them all.
fn patterns(words: &[u64], at: usize, cells: &mut [u64])
    requires { (at ≤ 1 + system_count) × (length cells.old ≡ most_cells) }
    ensures { cells.new ≡ from 0 words.now at most_cells }
{
    let end = at + Plan::CELLS;
    if end <= words.len() {
        array::step::copy(&words[at..end], cells);
        return;
    }
    for c in 0..Plan::CELLS {
        cells[c] = entry_or(words, at + c, 0);
    }
}

pub fn memory(words: &[u64], at: usize) -> Memory
    requires { at ≤ system_count }
    ensures { result ≡ memory_at words.now at }
{
    let mut cells = [0u64; Plan::CELLS];
    patterns(words, at + 1, &mut cells);
    let counter = low(entry_or(words, at, 0));
    Memory { counter, cells }
}

pub fn put_memory(memory: Memory, at: usize, words: &mut [u64])
    requires { at ≤ system_count }
    ensures { words.new ≡ with_memory memory at words.old }
{
    put_word(words, at, memory.counter as u64);
    let first = at + 1;
    let end = first + Plan::CELLS;
    if end <= words.len() {
        array::step::copy(&memory.cells, &mut words[first..end]);
        return;
    }
    for c in 0..Plan::CELLS {
        put_word(words, first + c, memory.cells[c]);
    }
}

// ---- a system

fn at_most(x: u64) -> u16
    ensures { result ≡ min x 65535 }
{
    x.min(65535) as u16
}

// The values that the plane remembers.
fn seen(words: &[u64]) -> Seen
    ensures { result.handed ≡ from 0 words.now handed_at most_actuators }
{
    let mut handed = [0u64; System::ACTUATORS];
    for a in 0..System::ACTUATORS {
        handed[a] = entry_or(words, HANDED + a, 0);
    }
    Seen { handed }
}

pub fn system(words: &[u64]) -> System
    ensures { result ≡ system_of_words words.now }
{
    let zero = memory::zero_memory();
    let mut memories = [zero; System::NODES];
    let mut good = [0u16; System::NODES];
    for j in 0..System::NODES {
        let m = memory(words, MEMORY * j);
        memories[j] = m;
        good[j] = at_most(entry_or(words, GOOD + j, 0));
    }
    System {
        memories,
        good,
        seen: seen(words),
    }
}

fn put_memories(nodes: usize, system: System, words: &mut [u64])
    requires { nodes ≤ most_nodes }
    ensures { words.new ≡ with_memories system nodes words.old }
{
    for j in 0..nodes {
        let m = system.memories[j];
        put_memory(m, MEMORY * j, words);
    }
}

fn put_seen(seen: Seen, words: &mut [u64])
    ensures { words.new ≡ stored_from (λ a. get_or seen.handed a 0) handed_at most_actuators words.old }
{
    for k in 0..System::ACTUATORS {
        let x = seen.handed[k];
        put_word(words, HANDED + k, x);
    }
}

// The words of the first nodes of a record and of what the plane remembers; all others stay.
pub fn put_system(nodes: usize, system: System, words: &mut [u64])
    requires { nodes ≤ most_nodes }
    ensures { words.new ≡ with_system nodes system words.old }
{
    put_memories(nodes, system, words);
    for j in 0..nodes {
        let x = system.good[j];
        put_word(words, GOOD + j, x as u64);
    }
    put_seen(system.seen, words);
}

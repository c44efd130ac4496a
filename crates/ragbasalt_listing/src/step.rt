// From words to a run and back, for any words.
ghost use Rattle.std.specs.Prelude.{◌≡◌, ◌≤◌};
ghost use Rattle.plan.specs.Limits.{most_nodes};
ghost use Rattle.ragbasalt_listing.specs.Words.{run_of, with_run};

use lines::Run;
use plan::Plan;

// Where the single controller's memory, the period and the number of the next frame stand; the words of a run.
const SINGLE: usize = system_words::step::SYSTEM;

const PERIOD: usize = SINGLE + system_words::step::MEMORY;

const FRAME: usize = PERIOD + 1;

pub const RUN: usize = FRAME + 1;

pub fn run(plan: Plan, words: &[u64]) -> Run
    ensures { result ≡ run_of plan words.now }
{
    let period = array::step::entry_or(words, PERIOD, 0) as usize;
    let system = system_words::step::system(words);
    let single = system_words::step::memory(words, SINGLE);
    let frame = array::step::entry_or(words, FRAME, 0) as usize;
    Run {
        plan,
        period,
        system,
        single,
        frame,
    }
}

// The words of a run but its plan's; all others stay.
pub fn put_run(nodes: usize, run: &Run, words: &mut [u64])
    requires { nodes ≤ most_nodes }
    ensures { words.new ≡ with_run nodes run.now words.old }
{
    let system = run.system;
    let single = run.single;
    system_words::step::put_system(nodes, system, words);
    system_words::step::put_memory(single, SINGLE, words);
    system_words::step::put_word(words, PERIOD, run.period as u64);
    system_words::step::put_word(words, FRAME, run.frame as u64);
}

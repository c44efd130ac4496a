// The calls on a run and its listing, for programs in C and Rust: declared in include/ragbasalt.h. A plan and a run are their words, each one array behind a pointer.
#![tactic(auto)]

ghost use Rattle.std.specs.Prelude.{◌≡◌, ◌/◌, ◌%◌, length};
ghost use Rattle.std.specs.Result.{result_unwrap_or};
ghost use Rattle.answer.specs.Tests.{refusal_of};
ghost use Rattle.plan.specs.Limits.{most_nodes};
ghost use Rattle.plan_grammar.specs.Meant.{plan_of};
ghost use Rattle.listing_start.specs.Answers.{start_of, start_answer, refusal_written, refusal_place};
ghost use Rattle.listing.specs.Answers.{next_answer, next_run, next_place};
ghost use Rattle.plan_words.specs.Words.{plan_words, plan_of_words};
ghost use Rattle.system_words.specs.Words.{code_of, if_done};
ghost use Rattle.ragbasalt_listing.specs.Words.{run_of, run_given};

use answer::Refusal;
use system::System;

pub mod step;

#[unsafe(no_mangle)]
pub extern "C" fn ragbasalt_listing_start(
    text: &[u8],
    plan: &mut [u64; plan_words::step::SIZE],
    run: &mut [u64; step::RUN],
) -> u64
    ensures { (result ≡ code_of (start_answer text.now)) × (plan.new ≡ if_done (start_answer text.now) (plan_words (plan_of text.now)) plan.old) × (run.new ≡ run_given (start_answer text.now) most_nodes (start_of (plan_of text.now)) run.old) }
{
    match listing_start::start(text) {
        Ok(started) => {
            step::put_run(System::NODES, &started, run);
            plan_words::step::put(started.plan, plan);
            0
        }
        Err(refusal) => system_words::step::code(refusal),
    }
}

#[unsafe(no_mangle)]
pub extern "C" fn ragbasalt_listing_next(
    plan: &[u64; plan_words::step::SIZE],
    run: &mut [u64; step::RUN],
    rest: &[u8],
    line: &mut [u8],
    count: &mut usize,
) -> u64
    ensures { (result ≡ code_of (next_answer (run_of (plan_of_words plan.now) run.old) rest.now (length line.old))) × (run.new ≡ run_given (next_answer (run_of (plan_of_words plan.now) run.old) rest.now (length line.old)) (plan_of_words plan.now).nodes (next_run (run_of (plan_of_words plan.now) run.old) rest.now (length line.old)) run.old) × (line.new ≡ next_place (run_of (plan_of_words plan.now) run.old) rest.now line.old) × (count.new ≡ result_unwrap_or (next_answer (run_of (plan_of_words plan.now) run.old) rest.now (length line.old)) 0) }
{
    let p = plan_words::step::plan(plan);
    let nodes = p.nodes;
    let mut state = step::run(p, run);
    let printed = listing::next(&mut state, rest, line);
    *count = printed.unwrap_or(0);
    match printed {
        Ok(_) => {
            step::put_run(nodes, &state, run);
            0
        }
        Err(refusal) => system_words::step::code(refusal),
    }
}

#[unsafe(no_mangle)]
pub extern "C" fn ragbasalt_listing_refusal(answer: u64, line: &mut [u8], count: &mut usize) -> u64
    ensures { (result ≡ code_of (refusal_written (refusal_of (answer % 256) (answer / 256)) (length line.old))) × (line.new ≡ refusal_place (refusal_of (answer % 256) (answer / 256)) line.old) × (count.new ≡ result_unwrap_or (refusal_written (refusal_of (answer % 256) (answer / 256)) (length line.old)) 0) }
{
    let refused = Refusal::with_number(answer as usize % 256, answer as usize / 256);
    let written = listing_start::refusal(refused, line);
    *count = written.unwrap_or(0);
    match written {
        Ok(_) => 0,
        Err(refusal) => system_words::step::code(refusal),
    }
}

// The calls on plans, for programs in C and Rust: declared in include/ragbasalt.h. A plan is its words (`plan_words`), one array behind a pointer.
#![tactic(auto)]

ghost use Rattle.std.specs.Prelude.{◌≡◌, length};
ghost use Rattle.std.specs.Result.{result_unwrap_or};
ghost use Rattle.plan.specs.Sizes.{sizes_of};
ghost use Rattle.plan_grammar.specs.Meant.{plan_of};
ghost use Rattle.plan_grammar.specs.Written.{plan_text};
ghost use Rattle.plan_period.specs.Answers.{checked, period_found};
ghost use Rattle.plan_text.specs.Answers.{read_answer};
ghost use Rattle.plan_text_write.specs.Answers.{write_answer, write_place};
ghost use Rattle.history.specs.Answers.{histories_answer, histories_place};
ghost use Rattle.memory.specs.Size.{message_size, mailbox_size};
ghost use Rattle.system.specs.Fault.{faults_size};
ghost use Rattle.plan_words.specs.Words.{plan_words, plan_of_words};
ghost use Rattle.system_words.specs.Words.{code_of, if_done};
ghost use Rattle.ragbasalt_plan.specs.Size.{size_of};

// Named after the version of the header, which asks for it: it rises where a struct, a parameter, a layout or a meaning changes, and a program built with another header does not link.
#[unsafe(no_mangle)]
pub extern "C" fn ragbasalt_version_4() -> u64
    ensures { result ≡ 4 }
{
    4
}

#[unsafe(no_mangle)]
pub extern "C" fn ragbasalt_plan_read(text: &[u8], plan: &mut [u64; plan_words::step::SIZE]) -> u64
    ensures { (result ≡ code_of (read_answer text.now)) × (plan.new ≡ if_done (read_answer text.now) (plan_words (plan_of text.now)) plan.old) }
{
    match plan_text::read(text) {
        Ok(p) => {
            let words = plan_words::step::words(p);
            *plan = words;
            0
        }
        Err(refusal) => system_words::step::code(refusal),
    }
}

#[unsafe(no_mangle)]
pub extern "C" fn ragbasalt_plan_write(
    plan: &[u64; plan_words::step::SIZE],
    text: &mut [u8],
    count: &mut usize,
) -> u64
    ensures { (result ≡ code_of (write_answer (plan_of_words plan.now) (length text.old))) × (text.new ≡ write_place (plan_of_words plan.now) text.old) × (count.new ≡ result_unwrap_or (write_answer (plan_of_words plan.now) (length text.old)) 0) }
{
    let p = plan_words::step::plan(plan);
    let written = plan_text_write::write(p, text);
    *count = written.unwrap_or(0);
    match written {
        Ok(_) => 0,
        Err(refusal) => system_words::step::code(refusal),
    }
}

#[unsafe(no_mangle)]
pub extern "C" fn ragbasalt_plan_check(plan: &[u64; plan_words::step::SIZE]) -> u64
    ensures { result ≡ code_of (checked (plan_of_words plan.now)) }
{
    let p = plan_words::step::plan(plan);
    match plan_period::check(p) {
        Ok(()) => 0,
        Err(refusal) => system_words::step::code(refusal),
    }
}

#[unsafe(no_mangle)]
pub extern "C" fn ragbasalt_plan_period(
    plan: &[u64; plan_words::step::SIZE],
    period: &mut usize,
) -> u64
    ensures { (result ≡ code_of (period_found (plan_of_words plan.now))) × (period.new ≡ result_unwrap_or (period_found (plan_of_words plan.now)) 0) }
{
    let p = plan_words::step::plan(plan);
    let found = plan_period::recovery_period(p);
    *period = found.unwrap_or(0);
    match found {
        Ok(_) => 0,
        Err(refusal) => system_words::step::code(refusal),
    }
}

#[unsafe(no_mangle)]
pub extern "C" fn ragbasalt_plan_histories(
    plan: &[u64; plan_words::step::SIZE],
    frames: usize,
    masks: &mut [u8],
    count: &mut usize,
) -> u64
    ensures { (result ≡ code_of (histories_answer (plan_of_words plan.now) frames (length masks.old))) × (masks.new ≡ histories_place (plan_of_words plan.now) frames masks.old) × (count.new ≡ result_unwrap_or (histories_answer (plan_of_words plan.now) frames (length masks.old)) 0) }
{
    let p = plan_words::step::plan(plan);
    let listed = history::histories(p, frames, masks);
    *count = listed.unwrap_or(0);
    match listed {
        Ok(_) => 0,
        Err(refusal) => system_words::step::code(refusal),
    }
}

// ---- sizes: 0 for a plan that 7 refuses

#[unsafe(no_mangle)]
pub extern "C" fn ragbasalt_message_size(plan: &[u64; plan_words::step::SIZE]) -> usize
    ensures { result ≡ size_of message_size (plan_of_words plan.now) }
{
    let p = plan_words::step::plan(plan);
    let Ok(_) = plan_period::recovery_period(p) else {
        return 0;
    };
    memory::step::message_size(p.cells)
}

#[unsafe(no_mangle)]
pub extern "C" fn ragbasalt_mailbox_size(plan: &[u64; plan_words::step::SIZE]) -> usize
    ensures { result ≡ size_of mailbox_size (plan_of_words plan.now) }
{
    let p = plan_words::step::plan(plan);
    let Ok(_) = plan_period::recovery_period(p) else {
        return 0;
    };
    memory::step::bin_at(p.nodes, p.cells)
}

#[unsafe(no_mangle)]
pub extern "C" fn ragbasalt_faults_size(plan: &[u64; plan_words::step::SIZE]) -> usize
    ensures { result ≡ size_of (λ p. faults_size (sizes_of p)) (plan_of_words plan.now) }
{
    let p = plan_words::step::plan(plan);
    let Ok(period) = plan_period::recovery_period(p) else {
        return 0;
    };
    let sizes = plan::sizes_with(p, period);
    faults::step::size(sizes)
}

#[unsafe(no_mangle)]
pub extern "C" fn ragbasalt_text_size(plan: &[u64; plan_words::step::SIZE]) -> usize
    ensures { result ≡ size_of (λ p. length (plan_text p)) (plan_of_words plan.now) }
{
    let p = plan_words::step::plan(plan);
    let Ok(_) = plan_period::recovery_period(p) else {
        return 0;
    };
    plan_writer::step::text_size(p)
}

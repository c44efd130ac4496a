// The calls on one node, for programs in C and Rust: declared in include/ragbasalt.h. A plan and a memory are their words (`plan_words`, `system_words`), each one array behind a pointer.
#![tactic(auto)]

ghost use Rattle.std.specs.Prelude.{◌≡◌, length};
ghost use Rattle.std.specs.Result.{result_unwrap_or};
ghost use Rattle.memory.specs.Size.{message_size};
ghost use Rattle.memory.specs.Node.{powered_on};
ghost use Rattle.system.specs.Single.{single_answer, single_memory, single_place_after};
ghost use Rattle.node.specs.Answers.{length_checked, power_on_answer, compute_memory, vote_answer, vote_memory, message_place, setpoint_place};
ghost use Rattle.plan_words.specs.Words.{plan_of_words};
ghost use Rattle.system_words.specs.Words.{code_of, memory_at, memory_given};

#[unsafe(no_mangle)]
pub extern "C" fn ragbasalt_node_power_on(
    plan: &[u64; plan_words::step::SIZE],
    memory: &mut [u64; system_words::step::MEMORY],
) -> u64
    ensures { (result ≡ code_of (power_on_answer (plan_of_words plan.now))) × (memory.new ≡ memory_given (power_on_answer (plan_of_words plan.now)) (powered_on (plan_of_words plan.now)) memory.old) }
{
    let p = plan_words::step::plan(plan);
    match node::power_on(p) {
        Ok(m) => {
            system_words::step::put_memory(m, 0, memory);
            0
        }
        Err(refusal) => system_words::step::code(refusal),
    }
}

#[unsafe(no_mangle)]
pub extern "C" fn ragbasalt_node_compute(
    plan: &[u64; plan_words::step::SIZE],
    memory: &mut [u64; system_words::step::MEMORY],
    sensors: &[u64],
) -> u64
    ensures { (result ≡ code_of (length_checked (plan_of_words plan.now) (length sensors.now) (plan_of_words plan.now).sensors)) × (memory.new ≡ memory_given (length_checked (plan_of_words plan.now) (length sensors.now) (plan_of_words plan.now).sensors) (compute_memory (plan_of_words plan.now) (memory_at memory.old 0) sensors.now) memory.old) }
{
    let p = plan_words::step::plan(plan);
    let mut m = system_words::step::memory(memory, 0);
    match node::compute(p, &mut m, sensors) {
        Ok(()) => {
            system_words::step::put_memory(m, 0, memory);
            0
        }
        Err(refusal) => system_words::step::code(refusal),
    }
}

#[unsafe(no_mangle)]
pub extern "C" fn ragbasalt_node_message(
    plan: &[u64; plan_words::step::SIZE],
    memory: &[u64; system_words::step::MEMORY],
    message: &mut [u8],
) -> u64
    ensures { (result ≡ code_of (length_checked (plan_of_words plan.now) (length message.old) (message_size (plan_of_words plan.now)))) × (message.new ≡ message_place (plan_of_words plan.now) (memory_at memory.now 0) message.old) }
{
    let p = plan_words::step::plan(plan);
    let m = system_words::step::memory(memory, 0);
    match node::message(p, m, message) {
        Ok(()) => 0,
        Err(refusal) => system_words::step::code(refusal),
    }
}

#[unsafe(no_mangle)]
pub extern "C" fn ragbasalt_node_vote(
    plan: &[u64; plan_words::step::SIZE],
    memory: &mut [u64; system_words::step::MEMORY],
    mailbox: &[u8],
    agreement: &mut usize,
) -> u64
    ensures { (result ≡ code_of (vote_answer (plan_of_words plan.now) (memory_at memory.old 0) mailbox.now)) × (memory.new ≡ memory_given (vote_answer (plan_of_words plan.now) (memory_at memory.old 0) mailbox.now) (vote_memory (plan_of_words plan.now) (memory_at memory.old 0) mailbox.now) memory.old) × (agreement.new ≡ result_unwrap_or (vote_answer (plan_of_words plan.now) (memory_at memory.old 0) mailbox.now) 0) }
{
    let p = plan_words::step::plan(plan);
    let mut m = system_words::step::memory(memory, 0);
    match node::vote(p, &mut m, mailbox) {
        Ok(agreed) => {
            system_words::step::put_memory(m, 0, memory);
            *agreement = agreed;
            0
        }
        Err(refusal) => {
            *agreement = 0;
            system_words::step::code(refusal)
        }
    }
}

#[unsafe(no_mangle)]
pub extern "C" fn ragbasalt_node_setpoints(
    plan: &[u64; plan_words::step::SIZE],
    memory: &[u64; system_words::step::MEMORY],
    setpoints: &mut [u64],
) -> u64
    ensures { (result ≡ code_of (length_checked (plan_of_words plan.now) (length setpoints.old) (plan_of_words plan.now).actuators)) × (setpoints.new ≡ setpoint_place (plan_of_words plan.now) (memory_at memory.now 0) setpoints.old) }
{
    let p = plan_words::step::plan(plan);
    let m = system_words::step::memory(memory, 0);
    match node::setpoints(p, m, setpoints) {
        Ok(()) => 0,
        Err(refusal) => system_words::step::code(refusal),
    }
}

// The single controller's frame.
#[unsafe(no_mangle)]
pub extern "C" fn ragbasalt_single_frame(
    plan: &[u64; plan_words::step::SIZE],
    memory: &mut [u64; system_words::step::MEMORY],
    sensors: &[u64],
    setpoints: &mut [u64],
) -> u64
    ensures { (result ≡ code_of (single_answer (plan_of_words plan.now) sensors.now setpoints.old)) × (memory.new ≡ memory_given (single_answer (plan_of_words plan.now) sensors.now setpoints.old) (single_memory (plan_of_words plan.now) (memory_at memory.old 0) sensors.now setpoints.old) memory.old) × (setpoints.new ≡ single_place_after (plan_of_words plan.now) (memory_at memory.old 0) sensors.now setpoints.old) }
{
    let p = plan_words::step::plan(plan);
    let mut m = system_words::step::memory(memory, 0);
    match single::frame(p, &mut m, sensors, setpoints) {
        Ok(()) => {
            system_words::step::put_memory(m, 0, memory);
            0
        }
        Err(refusal) => system_words::step::code(refusal),
    }
}

// The calls on a whole system, for programs in C and Rust: declared in include/ragbasalt.h. A plan, a system and a memory are their words (`plan_words`, `system_words`), each one array
// behind a pointer.
#![tactic(auto)]

ghost use Rattle.std.specs.Prelude.{◌≡◌};
ghost use Rattle.std.specs.Result.{result_unwrap_or};
ghost use Rattle.system.specs.CountCalls.{working_answer, equal_answer};
ghost use Rattle.plan_words.specs.Words.{plan_of_words};
ghost use Rattle.system_words.specs.Words.{code_of, memory_at, system_of_words};
ghost use Rattle.words_demand.specs.Calls.{started_by, words_started, framed_by, words_framed, place_framed};

use system::System;

// All words are written: what lies past the plan's nodes, cells and actuators is zero.
#[unsafe(no_mangle)]
pub extern "C" fn ragbasalt_system_power_on(
    plan: &[u64; plan_words::step::SIZE],
    system: &mut [u64; system_words::step::SYSTEM],
) -> u64
    ensures { (result ≡ code_of (started_by plan.now)) × (system.new ≡ words_started plan.now system.old) }
{
    let p = plan_words::step::plan(plan);
    match System::power_on(p) {
        Ok(s) => {
            system_words::step::put_system(System::NODES, s, system);
            0
        }
        Err(refusal) => system_words::step::code(refusal),
    }
}

// The words of the plan's nodes and of what the plane remembers are those of the record after the frame; all others stay.
#[unsafe(no_mangle)]
pub extern "C" fn ragbasalt_system_frame(
    plan: &[u64; plan_words::step::SIZE],
    system: &mut [u64; system_words::step::SYSTEM],
    sensors: &[u64],
    mask: u64,
    faults: &[u8],
    setpoints: &mut [u64],
    agreement: &mut usize,
) -> u64
    ensures { (result ≡ code_of (framed_by plan.now system.old sensors.now mask faults.now setpoints.old)) × (system.new ≡ words_framed plan.now system.old sensors.now mask faults.now setpoints.old) × (setpoints.new ≡ place_framed plan.now system.old sensors.now mask faults.now setpoints.old) × (agreement.new ≡ result_unwrap_or (framed_by plan.now system.old sensors.now mask faults.now setpoints.old) 0) }
{
    let p = plan_words::step::plan(plan);
    let mut s = system_words::step::system(system);
    let nodes = p.nodes;
    match frame::frame(p, &mut s, sensors, mask, faults, setpoints) {
        Ok(agreed) => {
            system_words::step::put_system(nodes, s, system);
            *agreement = agreed;
            0
        }
        Err(refusal) => {
            *agreement = 0;
            system_words::step::code(refusal)
        }
    }
}

#[unsafe(no_mangle)]
pub extern "C" fn ragbasalt_system_working(
    plan: &[u64; plan_words::step::SIZE],
    system: &[u64; system_words::step::SYSTEM],
    mask: u64,
    count: &mut usize,
) -> u64
    ensures { (result ≡ code_of (working_answer (plan_of_words plan.now) (system_of_words system.now) mask)) × (count.new ≡ result_unwrap_or (working_answer (plan_of_words plan.now) (system_of_words system.now) mask) 0) }
{
    let p = plan_words::step::plan(plan);
    let s = system_words::step::system(system);
    match count_calls::working(p, s, mask) {
        Ok(counted) => {
            *count = counted;
            0
        }
        Err(refusal) => {
            *count = 0;
            system_words::step::code(refusal)
        }
    }
}

#[unsafe(no_mangle)]
pub extern "C" fn ragbasalt_system_equal(
    plan: &[u64; plan_words::step::SIZE],
    system: &[u64; system_words::step::SYSTEM],
    memory: &[u64; system_words::step::MEMORY],
    count: &mut usize,
) -> u64
    ensures { (result ≡ code_of (equal_answer (plan_of_words plan.now) (system_of_words system.now) (memory_at memory.now 0))) × (count.new ≡ result_unwrap_or (equal_answer (plan_of_words plan.now) (system_of_words system.now) (memory_at memory.now 0)) 0) }
{
    let p = plan_words::step::plan(plan);
    let s = system_words::step::system(system);
    let m = system_words::step::memory(memory, 0);
    match count_calls::equal(p, s, m) {
        Ok(counted) => {
            *count = counted;
            0
        }
        Err(refusal) => {
            *count = 0;
            system_words::step::code(refusal)
        }
    }
}

// One node: power-on, compute, message, vote, setpoints. Each call tests the plan and the lengths; the steps under them are those of `memory` and `mailbox`.
#![tactic(auto)]

ghost use Rattle.std.specs.Prelude.{◌≡◌, length};
ghost use Rattle.memory.specs.Size.{message_size};
ghost use Rattle.node.specs.Answers.{length_checked, power_on_answer, compute_memory, vote_answer, vote_memory, message_place, setpoint_place};

use answer::Refusal;
use memory::Memory;
use plan::Plan;

pub fn power_on(plan: Plan) -> Result<Memory, Refusal>
    ensures { result ≡ power_on_answer plan }
{
    plan_period::recovery_period(plan)?;
    Ok(memory::step::power_on(&plan))
}

pub fn compute(plan: Plan, memory: &mut Memory, sensors: &[u64]) -> Result<(), Refusal>
    ensures { (result ≡ length_checked plan (length sensors.now) plan.sensors) × (memory.new ≡ compute_memory plan memory.old sensors.now) }
{
    plan_period::recovery_period(plan)?;
    let wanted = plan.sensors;
    if sensors.len() != wanted {
        return Err(Refusal::WrongLength);
    }
    *memory = memory::step::compute(&plan, *memory, sensors);
    Ok(())
}

pub fn message(plan: Plan, memory: Memory, out: &mut [u8]) -> Result<(), Refusal>
    ensures { (result ≡ length_checked plan (length out.old) (message_size plan)) × (out.new ≡ message_place plan memory out.old) }
{
    plan_period::recovery_period(plan)?;
    let cells = plan.cells;
    if out.len() != memory::step::message_size(cells) {
        return Err(Refusal::WrongLength);
    }
    mailbox::step::message(&plan, &memory, out);
    Ok(())
}

// What is given is the vote's agreement.
pub fn vote(plan: Plan, memory: &mut Memory, mailbox: &[u8]) -> Result<usize, Refusal>
    ensures { (result ≡ vote_answer plan memory.old mailbox.now) × (memory.new ≡ vote_memory plan memory.old mailbox.now) }
{
    plan_period::recovery_period(plan)?;
    let nodes = plan.nodes;
    let cells = plan.cells;
    if mailbox.len() != memory::step::bin_at(nodes, cells) {
        return Err(Refusal::WrongLength);
    }
    let vote = mailbox::step::vote(&plan, *memory, mailbox);
    *memory = vote.memory;
    Ok(vote.agreement)
}

pub fn setpoints(plan: Plan, memory: Memory, out: &mut [u64]) -> Result<(), Refusal>
    ensures { (result ≡ length_checked plan (length out.old) plan.actuators) × (out.new ≡ setpoint_place plan memory out.old) }
{
    plan_period::recovery_period(plan)?;
    let wanted = plan.actuators;
    if out.len() != wanted {
        return Err(Refusal::WrongLength);
    }
    memory::step::setpoints(&plan, &memory, out);
    Ok(())
}

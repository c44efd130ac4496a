// Reading a plan text. `plan_text_write` writes it.
#![tactic(auto)]

ghost use Rattle.std.specs.Prelude.{◌≡◌};
ghost use Rattle.plan_text.specs.Answers.{read_answer};

use answer::Refusal;
use plan::Plan;

pub mod step;

// A plan and its recovery period, which the last test on its text finds.
#[derive(Clone, Copy)]
pub struct PlanRead {
    pub plan: Plan,
    pub period: usize,
}

pub fn read(text: &[u8]) -> Result<Plan, Refusal>
    ensures { result ≡ read_answer text.now }
{
    let found = step::read(text)?;
    Ok(found.plan)
}

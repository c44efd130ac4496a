// Writing a plan text.
#![tactic(auto)]

ghost use Rattle.std.specs.Prelude.{◌≡◌, length};
ghost use Rattle.plan_text_write.specs.Answers.{write_answer, write_place};

use answer::Refusal;
use plan::Plan;

// So many bytes stand at the front of `out`.
pub fn write(plan: Plan, out: &mut [u8]) -> Result<usize, Refusal>
    ensures { (result ≡ write_answer plan (length out.old)) × (out.new ≡ write_place plan out.old) }
{
    plan_period::recovery_period(plan)?;
    let count = plan_writer::step::text_size(plan);
    if out.len() < count {
        return Err(Refusal::WrongLength);
    }
    plan_writer::step::write(plan, out);
    Ok(count)
}

// All fault histories of a small press: the sequences of masks in which every frame has more than half of the nodes working.
#![tactic(auto)]

ghost use Rattle.std.specs.Prelude.{◌≡◌, length};
ghost use Rattle.history.specs.Answers.{histories_answer, histories_place};

use answer::Refusal;
use plan::Plan;

// How many there are, with their masks at the front of `out`. They are counted before any is written, so that a short buffer stays as it is.
pub fn histories(plan: Plan, frames: usize, out: &mut [u8]) -> Result<usize, Refusal>
    ensures { (result ≡ histories_answer plan frames (length out.old)) × (out.new ≡ histories_place plan frames out.old) }
{
    let period = plan_period::recovery_period(plan)?;
    let nodes = plan.nodes;
    if !history_search::step::limits_ok(nodes, frames) {
        return Err(Refusal::NodesOrLength);
    }
    let count = history_search::step::count_all(nodes, period, frames);
    if out.len() < count * frames {
        return Err(Refusal::WrongLength);
    }
    history_search::step::put_all(nodes, period, frames, out);
    Ok(count)
}

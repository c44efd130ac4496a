// The calls that count nodes of a system: those that are working, and those that are equal to a memory.
#![tactic(auto)]

ghost use Rattle.std.specs.Prelude.{◌≡◌};
ghost use Rattle.system.specs.CountCalls.{working_answer, equal_answer};

use answer::Refusal;
use memory::Memory;
use plan::Plan;
use rows::RowWords;
use system::System;

pub fn working(plan: Plan, system: System, mask: u64) -> Result<usize, Refusal>
    ensures { result ≡ working_answer plan system mask }
{
    let period = plan_period::recovery_period(plan)?;
    let n = plan.nodes;
    if !(counts::step::mask_ok(n, mask) & counts::step::counts_ok(&system.good, n, period)) {
        return Err(Refusal::MaskOrCount);
    }
    let count = counts::step::working(&system.good, n, period, mask);
    Ok(count)
}

pub fn equal(plan: Plan, system: System, memory: Memory) -> Result<usize, Refusal>
    ensures { result ≡ equal_answer plan system memory }
{
    let period = plan_period::recovery_period(plan)?;
    let nodes = plan.nodes;
    if !counts::step::counts_ok(&system.good, nodes, period) {
        return Err(Refusal::MaskOrCount);
    }
    let rows = RowWords::beside(system, memory);
    let count = rows.equal(nodes, plan.cells);
    Ok(count)
}

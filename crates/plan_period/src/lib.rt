// The recovery period, and the test of a record: which records an accepted text has.
#![tactic(auto)]

ghost use Rattle.std.specs.Prelude.{◌≡◌};
ghost use Rattle.plan_period.specs.Answers.{checked, period_found, accepted_period};

use answer::Refusal;
use plan::Plan;

pub mod step;

// The recovery period of an accepted record: the test of a record for the calls above.
pub fn recovery_period(plan: Plan) -> Result<usize, Refusal>
    ensures { result ≡ period_found plan }
{
    if !plan_form::well_formed(plan) {
        return Err(Refusal::InvalidPlan);
    }
    step::period(plan).ok_or(Refusal::InvalidPlan)
}

// That period, and 0 for all other records: no call with it is refused.
pub fn accepted_period(plan: Plan) -> usize
    ensures { result ≡ accepted_period plan }
{
    recovery_period(plan).unwrap_or(0)
}

pub fn check(plan: Plan) -> Result<(), Refusal>
    ensures { result ≡ checked plan }
{
    recovery_period(plan)?;
    Ok(())
}

// The call on the single controller: its frame, with its setpoints.
#![tactic(auto)]

ghost use Rattle.std.specs.Prelude.{◌≡◌};
ghost use Rattle.system.specs.Single.{single_answer, single_memory, single_place_after};

use answer::Refusal;
use memory::Memory;
use plan::Plan;

pub fn frame(
    plan: Plan,
    memory: &mut Memory,
    sensors: &[u64],
    place: &mut [u64],
) -> Result<(), Refusal>
    ensures { (result ≡ single_answer plan sensors.now place.old) × (memory.new ≡ single_memory plan memory.old sensors.now place.old) × (place.new ≡ single_place_after plan memory.old sensors.now place.old) }
{
    plan_period::recovery_period(plan)?;
    let wanted = plan.sensors;
    let actuators = plan.actuators;
    if !((sensors.len() == wanted) & (place.len() == actuators)) {
        return Err(Refusal::WrongLength);
    }
    let next = memory::step::compute(&plan, *memory, sensors);
    memory::step::setpoints(&plan, &next, place);
    *memory = next;
    Ok(())
}

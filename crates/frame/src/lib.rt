// The call on a whole system: a frame under faults.
#![tactic(auto)]

ghost use Rattle.std.specs.Prelude.{◌≡◌, true, length};
ghost use Rattle.plan.specs.Accepted.{accepted};
ghost use Rattle.plan.specs.Known.{period as period_of};
ghost use Rattle.plan.specs.Sizes.{sizes_of};
ghost use Rattle.system.specs.Frame.{system_after, place_after, frame_agreement};
ghost use Rattle.system.specs.FrameCall.{lengths_ok, frame_answer, frame_system, frame_place};

use answer::Refusal;
use faults::Faults;
use plan::Plan;
use rows::RowWords;
use system::System;

// 8: sensors, fault bytes, place.
fn lengths_ok(plan: Plan, period: usize, sensors: usize, faults: usize, place: usize) -> bool
    requires { (accepted plan ≡ true) × (period ≡ period_of plan) }
    ensures { result ≡ lengths_ok plan sensors faults place }
{
    (sensors == plan.sensors)
        & (faults == faults::step::size(plan::sizes_with(plan, period)))
        & (place == plan.actuators)
}

// The record on rows, a frame of them, and the record again; what is given is the frame's agreement.
fn on_rows(
    plan: Plan,
    system: &mut System,
    sensors: &[u64],
    faults: &Faults,
    place: &mut [u64],
) -> usize
    requires { (accepted plan ≡ true) × (faults.now.sizes ≡ sizes_of plan) × (length sensors.now ≡ plan.sensors) × (length place.old ≡ plan.actuators) }
    ensures { (result ≡ frame_agreement plan system.old sensors.now faults.now.mask faults.now.bytes.now) × (system.new ≡ system_after plan system.old sensors.now faults.now.mask faults.now.bytes.now) × (place.new ≡ place_after plan system.old sensors.now faults.now.mask faults.now.bytes.now place.old) }
{
    let mut rows = RowWords::of(*system);
    let cams = cam::table();
    let agreement = row_frame::step::frame(plan, 1, sensors, &cams, faults, &mut rows);
    let actuators = plan.actuators;
    place.copy_from_slice(&rows.seen[0..actuators]);
    *system = rows.system();
    agreement
}

// What is given is the frame's agreement.
pub fn frame(
    plan: Plan,
    system: &mut System,
    sensors: &[u64],
    mask: u64,
    faults: &[u8],
    place: &mut [u64],
) -> Result<usize, Refusal>
    ensures { (result ≡ frame_answer plan system.old sensors.now mask faults.now place.old) × (system.new ≡ frame_system plan system.old sensors.now mask faults.now place.old) × (place.new ≡ frame_place plan system.old sensors.now mask faults.now place.old) }
{
    let period = plan_period::recovery_period(plan)?;
    let nodes = plan.nodes;
    if !(counts::step::mask_ok(nodes, mask)
        & counts::step::counts_ok(&system.good, nodes, period))
    {
        return Err(Refusal::MaskOrCount);
    }
    if !lengths_ok(plan, period, sensors.len(), faults.len(), place.len()) {
        return Err(Refusal::WrongLength);
    }
    let told = Faults {
        sizes: plan::sizes_with(plan, period),
        mask,
        bytes: faults,
    };
    let agreement = on_rows(plan, system, sensors, &told, place);
    Ok(agreement)
}

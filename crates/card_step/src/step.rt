// A delivery and a tick, for callers that know the plan to be accepted and the lengths to be right.
ghost use Rattle.std.specs.Prelude.{◌≡◌, true, ◌*◌, ◌≤◌, length};
ghost use Rattle.plan.specs.Limits.{most_nodes, most_cells};
ghost use Rattle.plan.specs.Accepted.{accepted};
ghost use Rattle.memory.specs.Size.{cell_at};
ghost use Rattle.card_bins.specs.Bins.{slot_size};
ghost use Rattle.card_step.specs.CardParts.{powered_state, delivered, ticked_memory, ticked_bins, ticked, ticked_place};

use card_page::{CardState, Phase};
use memory::Memory;
use plan::Plan;

pub fn power_on(plan: &Plan) -> CardState
    requires { accepted plan.now ≡ true }
    ensures { result ≡ powered_state plan.now }
{
    let memory = memory::step::power_on(plan);
    CardState {
        memory,
        phase: Phase::Compute.number(),
        flags: 0,
        mask: 0,
    }
}

pub fn deliver(
    nodes: usize,
    cells: usize,
    state: CardState,
    bins: &mut [u8],
    number: usize,
    message: &[u8],
) -> CardState
    requires { (nodes ≤ most_nodes) × (cells ≤ most_cells) × (nodes * slot_size cells ≤ length bins.old) × (length message.now ≡ cell_at cells) }
    ensures { (p : Plan) → p.nodes ≡ nodes → p.cells ≡ cells → record { state = result; bins = bins.new } ≡ delivered p number (record { state = state; bins = bins.old }) message.now }
{
    let phase = card_page::step::phase(state);
    match phase {
        Phase::Broadcast if number < nodes => {
            let last = card_bins::step::is_last_empty(bins, nodes, cells, number);
            card_bins::step::fill_bin(bins, cells, number, message);
            let due = card_page::step::due(state);
            let full = card_page::step::full(state) | last;
            card_page::step::with_flags(state, due, full)
        }
        _ => card_page::step::counted(state),
    }
}

// A memory after a tick: leaving compute runs the tasks, leaving vote votes.
fn moved(plan: &Plan, state: CardState, bins: &[u8], sensors: &[u64]) -> Memory
    requires { (accepted plan.now ≡ true) × (length sensors.now ≡ plan.now.sensors) × (plan.now.nodes * slot_size plan.now.cells ≤ length bins.now) }
    ensures { result ≡ ticked_memory plan.now sensors.now (record { state = state; bins = bins.now }) }
{
    let memory = state.memory;
    match card_page::step::phase(state) {
        Phase::Compute => memory::step::compute(plan, memory, sensors),
        Phase::Vote => card_bins::step::vote(plan, memory, bins),
        Phase::Broadcast | Phase::Sync => memory,
    }
}

// Leaving sync gives the setpoints and empties the bins; leaving another phase does neither.
fn close(plan: &Plan, state: CardState, bins: &mut [u8], place: &mut [u64])
    requires { (accepted plan.now ≡ true) × (length place.old ≡ plan.now.actuators) × (plan.now.nodes * slot_size plan.now.cells ≤ length bins.old) }
    ensures { (bins.new ≡ ticked_bins plan.now (record { state = state; bins = bins.old })) × (place.new ≡ ticked_place plan.now (record { state = state; bins = bins.old }) place.old) }
{
    match card_page::step::phase(state) {
        Phase::Sync => {
            let memory = state.memory;
            memory::step::setpoints(plan, &memory, place);
            card_bins::step::empty(bins, plan.nodes, plan.cells);
        }
        Phase::Compute | Phase::Broadcast | Phase::Vote => {}
    }
}

pub fn tick(
    plan: &Plan,
    state: CardState,
    bins: &mut [u8],
    sensors: &[u64],
    place: &mut [u64],
) -> CardState
    requires { (accepted plan.now ≡ true) × (length sensors.now ≡ plan.now.sensors) × (length place.old ≡ plan.now.actuators) × (plan.now.nodes * slot_size plan.now.cells ≤ length bins.old) }
    ensures { (record { state = result; bins = bins.new } ≡ ticked plan.now sensors.now (record { state = state; bins = bins.old })) × (place.new ≡ ticked_place plan.now (record { state = state; bins = bins.old }) place.old) }
{
    let memory = moved(plan, state, bins, sensors);
    close(plan, state, bins, place);
    let next = card_page::step::phase(state).next();
    let flagged = card_page::step::with_flags(state, true, card_page::step::full(state));
    CardState {
        memory,
        phase: next.number(),
        ..flagged
    }
}

// The card that a host drives: its page, its bins, and the node's frame by four ticks.
#![tactic(auto)]

ghost use Rattle.std.specs.Prelude.{◌≡◌};
ghost use Rattle.card_step.specs.Calls.{writing, delivery, ticking, card_answer, place_left};
ghost use Rattle.card.specs.Card.{parts_of, card_of, card_power_on, card_left, page_read};

use answer::Refusal;
use card_page::CardState;
use memory::Memory;
use plan::Plan;

// The bins are the plan's n, one after another, each a mark and a message (`card_bins`); what is past them is neither read nor changed.
#[derive(Clone, Copy)]
pub struct Card {
    pub memory: Memory,
    pub phase: u8,
    pub flags: u8,
    pub mask: u8,
    pub bins: [u8; Card::BINS],
}

impl Card {
    pub const BINS: usize = Plan::NODES * card_bins::step::SLOT;
}

fn state(card: &Card) -> CardState
    ensures { result ≡ (parts_of card.now).state }
{
    CardState {
        memory: card.memory,
        phase: card.phase,
        flags: card.flags,
        mask: card.mask,
    }
}

// Bins, and a state with the card's own memory, which is not stored again.
fn set_page(card: &mut Card, state: CardState, bins: [u8; Card::BINS])
    requires { state.memory ≡ card.old.memory }
    ensures { card.new ≡ card_of (record { state = state; bins = bins }) }
{
    card.phase = state.phase;
    card.flags = state.flags;
    card.mask = state.mask;
    card.bins = bins;
}

fn set_state(card: &mut Card, state: CardState)
    ensures { card.new ≡ card_of (record { state = state; bins = card.old.bins }) }
{
    card.memory = state.memory;
    card.phase = state.phase;
    card.flags = state.flags;
    card.mask = state.mask;
}

pub fn power_on(plan: Plan) -> Result<Card, Refusal>
    ensures { result ≡ card_power_on plan }
{
    plan_period::recovery_period(plan)?;
    let first = card_step::step::power_on(&plan);
    Ok(Card {
        memory: first.memory,
        phase: first.phase,
        flags: first.flags,
        mask: first.mask,
        bins: [0; Card::BINS],
    })
}

pub fn read(plan: Plan, card: &Card, at: usize) -> Result<u8, Refusal>
    ensures { result ≡ page_read plan card.now at }
{
    plan_period::recovery_period(plan)?;
    if at >= card_page::step::PAGE {
        return Err(Refusal::PageAccess);
    }
    Ok(card_page::step::read(state(card), at))
}

pub fn write(plan: Plan, card: &mut Card, at: usize, value: u8) -> Result<(), Refusal>
    ensures { (result ≡ card_answer plan (writing at value)) × (card.new ≡ card_left plan card.old (writing at value)) }
{
    plan_period::recovery_period(plan)?;
    if (at != card_page::step::MASK) & (at != card_page::step::CLEAR) {
        return Err(Refusal::PageAccess);
    }
    let next = card_page::step::write(state(card), at, value);
    set_state(card, next);
    Ok(())
}

pub fn deliver(plan: Plan, card: &mut Card, number: usize, message: &[u8]) -> Result<(), Refusal>
    ensures { (result ≡ card_answer plan (delivery number message.now)) × (card.new ≡ card_left plan card.old (delivery number message.now)) }
{
    plan_period::recovery_period(plan)?;
    let cells = plan.cells;
    if message.len() != memory::step::message_size(cells) {
        return Err(Refusal::WrongLength);
    }
    let before = state(card);
    // An array of their own: beside the memory in `card` they would have it copied with them.
    let mut bins = card.bins;
    let next = card_step::step::deliver(plan.nodes, cells, before, &mut bins, number, message);
    set_page(card, next, bins);
    Ok(())
}

pub fn tick(plan: Plan, card: &mut Card, sensors: &[u64], place: &mut [u64]) -> Result<(), Refusal>
    ensures { (result ≡ card_answer plan (ticking sensors.now place.old)) × (card.new ≡ card_left plan card.old (ticking sensors.now place.old)) × (place.new ≡ place_left plan (parts_of card.old) sensors.now place.old) }
{
    plan_period::recovery_period(plan)?;
    let wanted = plan.sensors;
    let outputs = plan.actuators;
    if (sensors.len() != wanted) | (place.len() != outputs) {
        return Err(Refusal::WrongLength);
    }
    let before = state(card);
    let next = card_step::step::tick(&plan, before, &mut card.bins, sensors, place);
    set_state(card, next);
    Ok(())
}

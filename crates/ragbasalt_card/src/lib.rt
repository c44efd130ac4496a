// The calls on a card, for programs in C and Rust: declared in include/ragbasalt.h. A plan and a card are their words (`plan_words`, `card_words`), the bins of a card its bytes, each one
// array behind a pointer.
#![tactic(auto)]

ghost use Rattle.std.specs.Prelude.{◌≡◌, List, ℕ};
ghost use Rattle.std.specs.Result.{result_unwrap_or};
ghost use Rattle.plan_words.specs.Words.{plan_of_words};
ghost use Rattle.system_words.specs.Words.{code_of};
ghost use Rattle.card_step.specs.Calls.{writing, delivery, ticking, card_answer, place_left};
ghost use Rattle.card.specs.Card.{parts_of, powered_card, card_power_on, card_left, page_read};
ghost use Rattle.card_words.specs.Words.{card_of_words, card_given, bins_given};

use card::Card;

#[unsafe(no_mangle)]
pub extern "C" fn ragbasalt_card_power_on(
    plan: &[u64; plan_words::step::SIZE],
    card: &mut [u64; card_words::step::CARD],
    bins: &mut [u8; Card::BINS],
) -> u64
    ensures { (result ≡ code_of (card_power_on (plan_of_words plan.now))) × (card.new ≡ card_given (card_power_on (plan_of_words plan.now)) (powered_card (plan_of_words plan.now)) card.old) × (bins.new ≡ bins_given (card_power_on (plan_of_words plan.now)) (powered_card (plan_of_words plan.now)) bins.old) }
{
    let p = plan_words::step::plan(plan);
    match card::power_on(p) {
        Ok(k) => {
            card_words::step::put_card(k, card);
            let made = k.bins;
            *bins = made;
            0
        }
        Err(refusal) => system_words::step::code(refusal),
    }
}

// The page is of the card's words alone: its bins may be any.
#[unsafe(no_mangle)]
pub extern "C" fn ragbasalt_card_read(
    plan: &[u64; plan_words::step::SIZE],
    card: &[u64; card_words::step::CARD],
    at: usize,
    value: &mut u8,
) -> u64
    ensures { (bytes : List ℕ) → (result ≡ code_of (page_read (plan_of_words plan.now) (card_of_words card.now bytes) at)) × (value.new ≡ result_unwrap_or (page_read (plan_of_words plan.now) (card_of_words card.now bytes) at) 0) }
{
    let p = plan_words::step::plan(plan);
    let k = card_words::step::bare(card);
    match card::read(p, &k, at) {
        Ok(byte) => {
            *value = byte;
            0
        }
        Err(refusal) => {
            *value = 0;
            system_words::step::code(refusal)
        }
    }
}

#[unsafe(no_mangle)]
pub extern "C" fn ragbasalt_card_write(
    plan: &[u64; plan_words::step::SIZE],
    card: &mut [u64; card_words::step::CARD],
    at: usize,
    value: u8,
) -> u64
    ensures { (bytes : List ℕ) → (result ≡ code_of (card_answer (plan_of_words plan.now) (writing at value))) × (card.new ≡ card_given (card_answer (plan_of_words plan.now) (writing at value)) (card_left (plan_of_words plan.now) (card_of_words card.old bytes) (writing at value)) card.old) }
{
    let p = plan_words::step::plan(plan);
    let mut k = card_words::step::bare(card);
    match card::write(p, &mut k, at, value) {
        Ok(()) => {
            card_words::step::put_card(k, card);
            0
        }
        Err(refusal) => system_words::step::code(refusal),
    }
}

#[unsafe(no_mangle)]
pub extern "C" fn ragbasalt_card_deliver(
    plan: &[u64; plan_words::step::SIZE],
    card: &mut [u64; card_words::step::CARD],
    bins: &mut [u8; Card::BINS],
    number: usize,
    message: &[u8],
) -> u64
    ensures { (result ≡ code_of (card_answer (plan_of_words plan.now) (delivery number message.now))) × (card.new ≡ card_given (card_answer (plan_of_words plan.now) (delivery number message.now)) (card_left (plan_of_words plan.now) (card_of_words card.old bins.old) (delivery number message.now)) card.old) × (bins.new ≡ bins_given (card_answer (plan_of_words plan.now) (delivery number message.now)) (card_left (plan_of_words plan.now) (card_of_words card.old bins.old) (delivery number message.now)) bins.old) }
{
    let p = plan_words::step::plan(plan);
    let mut k = card_words::step::card(card, bins);
    match card::deliver(p, &mut k, number, message) {
        Ok(()) => {
            card_words::step::put_card(k, card);
            *bins = k.bins;
            0
        }
        Err(refusal) => system_words::step::code(refusal),
    }
}

#[unsafe(no_mangle)]
pub extern "C" fn ragbasalt_card_tick(
    plan: &[u64; plan_words::step::SIZE],
    card: &mut [u64; card_words::step::CARD],
    bins: &mut [u8; Card::BINS],
    sensors: &[u64],
    setpoints: &mut [u64],
) -> u64
    ensures { (result ≡ code_of (card_answer (plan_of_words plan.now) (ticking sensors.now setpoints.old))) × (card.new ≡ card_given (card_answer (plan_of_words plan.now) (ticking sensors.now setpoints.old)) (card_left (plan_of_words plan.now) (card_of_words card.old bins.old) (ticking sensors.now setpoints.old)) card.old) × (bins.new ≡ bins_given (card_answer (plan_of_words plan.now) (ticking sensors.now setpoints.old)) (card_left (plan_of_words plan.now) (card_of_words card.old bins.old) (ticking sensors.now setpoints.old)) bins.old) × (setpoints.new ≡ place_left (plan_of_words plan.now) (parts_of (card_of_words card.old bins.old)) sensors.now setpoints.old) }
{
    let p = plan_words::step::plan(plan);
    let mut k = card_words::step::card(card, bins);
    match card::tick(p, &mut k, sensors, setpoints) {
        Ok(()) => {
            card_words::step::put_card(k, card);
            *bins = k.bins;
            0
        }
        Err(refusal) => system_words::step::code(refusal),
    }
}

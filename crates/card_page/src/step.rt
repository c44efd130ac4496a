// Reading and writing a card's page. Which places may be read or written is for the calls to say.
ghost use Rattle.std.specs.Prelude.{◌≡◌};
ghost use Rattle.array.specs.Bit.{bit};
ghost use Rattle.card_page.specs.Page.{two_bits, named_bits, phase_number, phase_of, timer_due, bins_full, flag_byte, page_byte, with_flags, as_counts, written_at};

use super::{CardState, Phase};

// The bytes of the page, and those that a host may write.
pub const PAGE: usize = 16;

pub const MASK: usize = 4;

pub const CLEAR: usize = 5;

// ---- what counts

pub fn phase(state: CardState) -> Phase
    ensures { phase_number result ≡ phase_of state }
{
    Phase::of(state.phase)
}

fn named(b: u8) -> u8
    ensures { result ≡ named_bits b }
{
    b % 4
}

fn bit_0(b: u8) -> bool
    ensures { result ≡ bit b 0 }
{
    b % 2 == 1
}

fn bit_1(b: u8) -> bool
    ensures { result ≡ bit b 1 }
{
    b / 2 % 2 == 1
}

pub fn due(state: CardState) -> bool
    ensures { result ≡ timer_due state }
{
    bit_0(state.flags)
}

pub fn full(state: CardState) -> bool
    ensures { result ≡ bins_full state }
{
    bit_1(state.flags)
}

// ---- the page

fn two(first: bool, second: bool) -> u8
    ensures { result ≡ two_bits first second }
{
    if second {
        return if first { 3 } else { 2 };
    }
    if first { 1 } else { 0 }
}

fn flag_byte(state: CardState) -> u8
    ensures { result ≡ flag_byte state }
{
    let kept = named(state.flags);
    if (due(state) & bit_0(state.mask)) | (full(state) & bit_1(state.mask)) {
        return kept + 4;
    }
    kept
}

// A byte of the page, 0 past it.
pub fn read(state: CardState, at: usize) -> u8
    ensures { result ≡ page_byte state at }
{
    let memory = state.memory;
    let counter = memory.counter;
    if at == 0 {
        return (counter / 256 % 256) as u8;
    }
    if at == 1 {
        return (counter % 256) as u8;
    }
    if at == 2 {
        return phase(state).number();
    }
    if at == 3 {
        return flag_byte(state);
    }
    if at == MASK {
        return named(state.mask);
    }
    0
}

// ---- a card as it counts

pub fn with_flags(state: CardState, due: bool, full: bool) -> CardState
    ensures { result ≡ with_flags state due full }
{
    CardState {
        phase: phase(state).number(),
        flags: two(due, full),
        mask: named(state.mask),
        ..state
    }
}

pub fn counted(state: CardState) -> CardState
    ensures { result ≡ as_counts state }
{
    with_flags(state, due(state), full(state))
}

pub fn write(state: CardState, at: usize, value: u8) -> CardState
    ensures { result ≡ written_at state at value }
{
    if at == MASK {
        return CardState {
            mask: named(value),
            ..counted(state)
        };
    }
    let keep_due = !bit_0(value);
    let keep_full = !bit_1(value);
    with_flags(state, due(state) & keep_due, full(state) & keep_full)
}

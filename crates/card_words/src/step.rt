// From words and bytes to a card and back, for any words and bytes: as in `system_words`, nothing has to be known of a length.
ghost use Rattle.std.specs.Prelude.{◌≡◌, [], get_or, length};
ghost use Rattle.array.specs.Index.{from};
ghost use Rattle.card.specs.Card.{most_bins};
ghost use Rattle.card_words.specs.Words.{byte_of, card_of_words, with_card};

use array::step::entry_or;
use card::Card;

// Where phase, flags and mask stand; the words of a card.
const PHASE: usize = system_words::step::MEMORY;

const FLAGS: usize = PHASE + 1;

const MASK: usize = PHASE + 2;

pub const CARD: usize = PHASE + 3;

fn low_byte(words: &[u64], at: usize) -> u8
    ensures { result ≡ byte_of words.now at }
{
    (entry_or(words, at, 0) % 256) as u8
}

// The bytes of all bins, copied where there are as many.
fn copy_bins(bytes: &[u8], bins: &mut [u8])
    requires { length bins.old ≡ most_bins }
    ensures { bins.new ≡ from 0 bytes.now 0 most_bins }
{
    let end = Card::BINS;
    if end <= bytes.len() {
        bins.copy_from_slice(&bytes[0..end]);
        return;
    }
    for k in 0..Card::BINS {
        bins[k] = entry_or(bytes, k, 0);
    }
}

pub fn card(words: &[u64], bytes: &[u8]) -> Card
    ensures { result ≡ card_of_words words.now bytes.now }
{
    let mut bins = [0u8; Card::BINS];
    copy_bins(bytes, &mut bins);
    let memory = system_words::step::memory(words, 0);
    Card {
        memory,
        phase: low_byte(words, PHASE),
        flags: low_byte(words, FLAGS),
        mask: low_byte(words, MASK),
        bins,
    }
}

// A card of which no bytes are handed over: its bins are zeros.
pub fn bare(words: &[u64]) -> Card
    ensures { result ≡ card_of_words words.now [] }
{
    let bins = [0u8; Card::BINS];
    let memory = system_words::step::memory(words, 0);
    Card {
        memory,
        phase: low_byte(words, PHASE),
        flags: low_byte(words, FLAGS),
        mask: low_byte(words, MASK),
        bins,
    }
}

// The words of a card; all others stay.
pub fn put_card(card: Card, words: &mut [u64])
    ensures { words.new ≡ with_card card words.old }
{
    system_words::step::put_memory(card.memory, 0, words);
    system_words::step::put_word(words, PHASE, card.phase as u64);
    system_words::step::put_word(words, FLAGS, card.flags as u64);
    system_words::step::put_word(words, MASK, card.mask as u64);
}

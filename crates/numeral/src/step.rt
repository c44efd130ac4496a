// Digits one by one and eight at a time, for callers that know how many there are.
ghost use Rattle.std.specs.Prelude.{◌≡◌, ◌+◌, ◌-◌, ◌<◌, ◌≤◌, true, false, length, if◌then◌else◌, slice_index, None, Some};
ghost use Rattle.array.specs.Index.{all_below};
ghost use Rattle.numeral.specs.Numeral.{is_digit, numeral_of};
ghost use Rattle.numeral.specs.Code.{decimal_from};

// The digit that a byte shows; above 9 if it shows none.
pub fn digit(b: u8) -> u64
    ensures { (is_digit b ≡ true → result ≡ b - 48) × (is_digit b ≡ false → 9 < result) }
{
    std::num::wrapping_sub_u64(b as u64, 48)
}

// What one byte shows.
pub fn one(b: u8) -> Option<u64>
    ensures { result ≡ (if is_digit b then Some (b - 48) else None) }
{
    let x = digit(b);
    if 9 < x {
        return None;
    }
    Some(x)
}

// What at most seven digits show.
pub fn few(d: &[u8]) -> Option<u64>
    requires { length d.now < 8 }
    ensures { result ≡ numeral_of d.now }
{
    let n = d.len();
    if n == 0 {
        return None;
    }
    let mut v = digit(d[0]);
    // No zero before others.
    if (9 < v) | ((v == 0) & (1 < n)) {
        return None;
    }
    for i in 1..n {
        let x = digit(d[i]);
        if 9 < x {
            return None;
        }
        v = v * 10 + x;
    }
    Some(v)
}

// The number that the eight bytes from i on are, if all are digits. They are tested at once, then joined, always two neighbours in the place of the first: digits to pairs, pairs to
// fours, fours to the number. A mask drops what was joined across.
pub fn eight(d: &[u8], i: usize) -> Option<u64>
    requires { i + 8 ≤ length d.now }
    ensures { result ≡ (if all_below (λ k. is_digit (slice_index d.now (i + k))) 8 then Some (decimal_from d.now i 8) else None) }
{
    let x = std::num::wrapping_sub_u64(word::step::read_le8(d, i), 0x3030303030303030);
    // A byte is at most 9 if neither it nor it with 118 more has its high bit.
    let y = std::num::wrapping_add_u64(x, 0x7676767676767676);
    if !(((x & 0x8080808080808080) == 0) & ((y & 0x8080808080808080) == 0)) {
        return None;
    }
    let pairs = (x * 10 + (x >> 8)) & 0x00FF00FF00FF00FF;
    let fours = (pairs * 100 + (pairs >> 16)) & 0x0000FFFF0000FFFF;
    Some((fours * 10000 + (fours >> 32)) & 0xFFFFFFFF)
}

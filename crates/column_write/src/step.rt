// The words that a column is written by; a column in a longer buffer.
ghost use Rattle.std.specs.Prelude.{◌≡◌, ◌++◌, ◌+◌, ◌-◌, ◌<◌, ◌≤◌, ◌^◌, length, drop, replicate};
ghost use Rattle.array.specs.Code.{placed};
ghost use Rattle.column.specs.Column.{column};
ghost use Rattle.word.specs.Word.{word_of, low_run};
ghost use Rattle.column_write.specs.Code.{digit_list};

// Eight bytes '0'.
pub const ZEROS: u64 = 0x3030303030303030;

// 1 in the place of the last of eight digits, and of four.
pub const LAST_OF_EIGHT: u64 = 0x0100000000000000;

pub const LAST_OF_FOUR: u64 = 0x01000000;

// The digits of two numbers of four digits each, as a word of eight bytes: the hundreds of both at once, then the tens of all four pairs.
// For a below 10^4, a / 100 = a * 10486 / 2^20; for a below 100, a / 10 = a * 103 / 2^10.
pub fn digit_word(a: u64, b: u64) -> u64
    requires { (a < 10 ^ 4) × (b < 10 ^ 4) }
    ensures { result ≡ word_of (digit_list 4 a ++ digit_list 4 b) }
{
    let fours = a + b * 4294967296;
    let hundreds = ((fours * 10486) >> 20) & 0x0000007F0000007F;
    // Each field: its hundreds, then what is left: (fours - hundreds * 100) * 2^16 + hundreds.
    let pairs = fours * 65536 - hundreds * 6553599;
    let tens = ((pairs * 103) >> 10) & 0x000F000F000F000F;
    let ones = pairs - tens * 10;
    tens + ones * 256
}

// A word of digits as bytes: 48 added to each, but 32 to the zeros before the first other. `last` is 1 in the place of the last digit, so that a lone zero is printed.
pub fn blanked(values: u64, last: u64) -> u64
    requires { (values < 2 ^ 60) × (0 < last) × (last < 2 ^ 60) }
    ensures { result ≡ values + (word_of (replicate 8 48) - word_of (replicate (low_run 0 8 (values + last)) 16)) }
{
    let bits = 8 * word::step::zero_bytes(values + last);
    values + (ZEROS - (0x1010101010101010 & ((1u64 << bits) - 1)))
}

// Blanks in the first n bytes.
pub fn put_blanks(out: &mut [u8], n: usize)
    requires { n ≤ length out.old }
    ensures { out.new ≡ replicate n 32 ++ drop n out.old }
{
    out[..n].fill(b' ');
}

// Fills the column of a width at a place.
pub fn put(out: &mut [u8], at: usize, width: usize, v: u64)
    requires { (at + width ≤ length out.old) × (width ≤ 20) × (at < 65536) }
    ensures { out.new ≡ placed out.old at (column width v) }
{
    super::write(&mut out[at..at + width], v);
}

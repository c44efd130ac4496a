// Reading for callers that know their column to be wide, and the word that blanks are read by.
ghost use Rattle.std.specs.Prelude.{◌≡◌, ◌+◌, ◌-◌, ◌<◌, ◌≤◌, false, nat_le};
ghost use Rattle.std.proofs.Math.Seq.{slice};
ghost use Rattle.word.specs.Word.{low_run};
ghost use Rattle.column.specs.Column.{number_shown};

// Four blanks.
pub const BLANKS: u32 = 0x20202020;

// How many of four bytes are blanks, up to the first other.
pub fn blanks(w: u32) -> usize
    ensures { result ≡ low_run 32 4 w }
{
    (u32::trailing_zeros(std::num::wrapping_sub_u32(w, BLANKS)) / 8) as usize
}

// Whether a column has eight bytes or more. With constant ends the compiler knows it, and leaves `numeral` out of narrow columns. If `to` lies before `from`,
// either answer.
pub fn is_wide(from: usize, to: usize) -> bool
    ensures { (from ≤ to → result ≡ nat_le 8 (to - from)) × (result ≡ false → to < from + 8) }
{
    8 <= std::num::wrapping_sub_usize(to, from)
}

// What `read` gives, without its test; most wide columns of a plan show one digit.
pub fn read_wide(line: &[u8], from: usize, to: usize) -> Option<u64>
    ensures { result ≡ number_shown (slice from to line.now) }
{
    let d = super::digits(line, from, to);
    if d.len() == 1 {
        return numeral::step::one(d[0]);
    }
    numeral_read::numeral(d)
}

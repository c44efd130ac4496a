// A right-justified decimal column, written.
#![tactic(auto)]

ghost use Rattle.std.specs.Prelude.{◌≡◌, length};
ghost use Rattle.column.specs.Column.{mark, column};

pub mod step;

// The byte for what is left of a number: its last digit, or a blank where nothing is left.
fn glyph(q: u64) -> u8
    ensures { result ≡ mark q }
{
    if q == 0 { 32 } else { 48 + (q % 10) as u8 }
}

// Fills the column with the number, right-justified.
pub fn write(out: &mut [u8], v: u64)
    ensures { out.new ≡ column (length out.old) v }
{
    // Backwards in steps of eight, until nothing is left of the number: of what `rchunks_exact_mut` or `iter_mut().rev()` write a proof knows nothing.
    let mut i = out.len();
    let mut rest = v;
    while 8 <= i {
        i -= 8;
        let low = rest % 100000000;
        rest = rest / 100000000;
        let d = step::digit_word(low / 10000, low % 10000);
        if rest == 0 {
            word::step::write_le8(out, i, step::blanked(d, step::LAST_OF_EIGHT));
            step::put_blanks(out, i);
            return;
        }
        word::step::write_le8(out, i, d + step::ZEROS);
    }
    if 4 <= i {
        i -= 4;
        let low = rest % 10000;
        rest = rest / 10000;
        let d = step::digit_word(low, 0);
        if rest == 0 {
            word::step::write_le4(out, i, step::blanked(d, step::LAST_OF_FOUR));
            step::put_blanks(out, i);
            return;
        }
        word::step::write_le4(out, i, d + step::ZEROS);
    }
    if i == 0 {
        return;
    }
    i -= 1;
    out[i] = 48 + (rest % 10) as u8;
    rest = rest / 10;
    while 0 < i {
        i -= 1;
        out[i] = glyph(rest);
        rest = rest / 10;
    }
}

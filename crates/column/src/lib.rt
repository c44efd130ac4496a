// A right-justified decimal column, read. `column_write` writes it.
#![tactic(auto)]

ghost use Rattle.std.specs.Prelude.{◌≡◌};
ghost use Rattle.std.proofs.Math.Seq.{slice};
ghost use Rattle.column.specs.Column.{drop_blanks, number_shown};

pub mod step;

// The part of the line that holds the digits of its column from..to, from where the blanks end.
// Of a column that reaches past the line's end only what lies in the line counts.
// Four bytes at a time; of four that are not all blanks, the lowest byte that differs from a blank ends them.
pub fn digits<'a>(line: &'a [u8], from: usize, to: usize) -> &'a [u8]
    ensures { result.now ≡ drop_blanks (slice from to line.now) }
{
    let len = line.len();
    let end = to.min(len);
    if end <= from {
        return &line[end..end];
    }
    // In steps of four, and where they end is what is given: `chunks_exact` would lose the place.
    let mut i = from;
    while 4 <= end - i {
        let w = word::step::read_le4(line, i);
        if w != step::BLANKS {
            i += step::blanks(w);
            return &line[i..end];
        }
        i += 4;
    }
    for j in i..end {
        if line[j] != b' ' {
            return &line[j..end];
        }
    }
    &line[end..end]
}

// The number that the column shows. A narrow column has few digits, which are read inline.
pub fn read(line: &[u8], from: usize, to: usize) -> Option<u64>
    ensures { result ≡ number_shown (slice from to line.now) }
{
    let d = digits(line, from, to);
    if step::is_wide(from, to) {
        return numeral_read::numeral(d);
    }
    numeral::step::few(d)
}

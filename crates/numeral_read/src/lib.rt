// What any number of digits show: eight at a time, then one by one.
#![tactic(auto)]

ghost use Rattle.std.specs.Prelude.{◌≡◌};
ghost use Rattle.numeral.specs.Numeral.{numeral_of};

// What digits with nothing before them show.
pub fn numeral(d: &[u8]) -> Option<u64>
    ensures { result ≡ numeral_of d.now }
{
    let n = d.len();
    if n < 8 {
        return numeral::step::few(d);
    }
    // More than twenty digits are above 2^64 - 1. Nineteen are below 2^64: only at a twentieth is the number tested.
    if 20 < n {
        return None;
    }
    let most = n.min(19);
    let mut v: u64 = 0;
    // In steps of eight, as long as eight are left: `chunks_exact` would have to be taken apart again for the digits behind them.
    let mut i: usize = 0;
    while 8 <= most - i {
        let Some(e) = numeral::step::eight(d, i) else {
            return None;
        };
        // Below 10^7, the first eight begin with a zero.
        if (i == 0) & (e < 10000000) {
            return None;
        }
        v = v * 100000000 + e;
        i += 8;
    }
    for j in i..most {
        let x = numeral::step::digit(d[j]);
        if 9 < x {
            return None;
        }
        v = v * 10 + x;
    }
    if n < 20 {
        return Some(v);
    }
    let x = numeral::step::digit(d[19]);
    if 9 < x {
        return None;
    }
    if 1844674407370955161 <= v {
        if 1844674407370955161 < v {
            return None;
        }
        if 5 < x {
            return None;
        }
    }
    Some(v * 10 + x)
}

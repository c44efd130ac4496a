// Arithmetic on patterns: a pattern is the 64 bits of an IEEE 754 binary64 value. Limit and Wind are in `limit`.
#![tactic(auto)]

ghost use Rattle.std.specs.Prelude.{◌≡◌};
ghost use Rattle.pattern.specs.Constant.{is_finite, finite_unsigned};
ghost use Rattle.pattern.specs.Pattern.{is_nan_of, value_of, pattern_of, sum_of, diff_of, scale_of};

// Wind's two constants travel together.
#[derive(Clone, Copy)]
pub struct WindLaw {
    pub rate: f64,
    pub cap: f64,
}

// Without its sign bit a NaN's pattern is above infinity's.
pub fn is_nan(a: u64) -> bool
    ensures { result ≡ is_nan_of a }
{
    0x7ff0_0000_0000_0000 < a % 0x8000_0000_0000_0000
}

pub fn value(a: u64) -> f64
    ensures { result ≡ value_of a }
{
    if is_nan(a) {
        return 0.0 / 0.0;
    }
    f64::from_bits(a)
}

// Hardware's NaN may have a sign and a payload; ours has one pattern.
pub fn pattern(x: f64) -> u64
    ensures { result ≡ pattern_of x }
{
    if x != x {
        return 0x7ff8_0000_0000_0000;
    }
    f64::to_bits(x)
}

pub fn sum(a: u64, b: u64) -> u64
    ensures { result ≡ sum_of a b }
{
    pattern(value(a) + value(b))
}

pub fn diff(a: u64, b: u64) -> u64
    ensures { result ≡ diff_of a b }
{
    pattern(value(a) - value(b))
}

pub fn scale(factor: f64, a: u64) -> u64
    ensures { result ≡ scale_of factor a }
{
    pattern(factor * value(a))
}

// Which constants a plan allows.
pub fn is_finite(x: f64) -> bool
    ensures { result ≡ is_finite x }
{
    let top = f64::from_bits(0x7ff0_0000_0000_0000);
    (x < top) & (-top < x)
}

pub fn is_finite_unsigned(x: f64) -> bool
    ensures { result ≡ finite_unsigned x }
{
    if is_finite(x) {
        f64::to_bits(x) < 0x8000_0000_0000_0000
    } else {
        false
    }
}

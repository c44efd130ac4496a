// Limit and Wind on patterns.
#![tactic(auto)]

ghost use Rattle.std.specs.Prelude.{◌≡◌};
ghost use Rattle.std.specs.Float.Ieee.{lt};
ghost use Rattle.pattern.specs.Pattern.{value_of, limit_of, wind_limit_of, wind_of};

use pattern::WindLaw;

// Patterns are compared as values: the order of their bits is another one.
fn is_below(a: u64, low: f64) -> bool
    ensures { result ≡ lt (value_of a) low }
{
    pattern::value(a) < low
}

fn is_above(a: u64, high: f64) -> bool
    ensures { result ≡ lt high (value_of a) }
{
    pattern::value(a) > high
}

pub fn limit(a: u64, low: f64, high: f64) -> u64
    ensures { result ≡ limit_of a low high }
{
    let nan = pattern::is_nan(a);
    if is_below(a, low) | nan {
        return pattern::pattern(low);
    }
    if is_above(a, high) {
        return pattern::pattern(high);
    }
    a
}

// The limiting step of Wind.
pub fn wind_limit(raw: u64, law: WindLaw) -> u64
    ensures { result ≡ wind_limit_of raw law }
{
    limit(raw, -law.cap, law.cap)
}

pub fn wind(old: u64, a: u64, law: WindLaw) -> u64
    ensures { result ≡ wind_of old a law }
{
    wind_limit(
        pattern::pattern(pattern::value(old) + law.rate * pattern::value(a)),
        law,
    )
}

// A cam's value, by a table that the caller lends.
ghost use Rattle.std.specs.Prelude.{◌≡◌, pos};
ghost use Rattle.std.specs.Float.{binary64};
ghost use Rattle.std.specs.Float.Ieee.{of_int};
ghost use Rattle.cam.specs.Cam.{cam_table, cam_position, cam_of};

use super::{LAST, SIZE};

// The entry that a value takes. A NaN is not 0 or above, so it goes with what is below.
fn position(x: f64) -> usize
    ensures { result ≡ cam_position x }
{
    if !(x >= 0.0) {
        return 0;
    }
    if x > 512.0 {
        return LAST;
    }
    std::num::truncating_f64_to_u64(x) as usize
}

fn float(n: u32) -> f64
    ensures { result ≡ of_int binary64 (pos n) }
{
    n as f64
}

pub fn cam(cams: &[u32; SIZE], a: u64) -> u64
    requires { cams.now ≡ cam_table }
    ensures { result ≡ cam_of a }
{
    let i = position(pattern::value(a));
    pattern::pattern(float(cams[i]))
}

// The steps of a vote, for callers that know how many bins there are. Of n bins, k hold something; their values stand packed in the front of an array.
ghost use Rattle.std.specs.Prelude.{◌≡◌, ◌<◌, ◌≤◌};
ghost use Rattle.plan.specs.Limits.{most_nodes, most_frames};
ghost use Rattle.ballot.specs.Majority.{holders as holders_of, backing, majority as majority_of, or_own};
ghost use Rattle.ballot.specs.Code.{packed};
ghost use Rattle.ballot.specs.Plane.{plane as plane_of};

use plan::Plan;

// How many of the first k values are x.
pub fn holders(values: &[u64; Plan::NODES], k: usize, x: u64) -> usize
    requires { k ≤ most_nodes }
    ensures { result ≡ holders_of (packed values.now k) k x }
{
    let mut held: usize = 0;
    for j in 0..k {
        if values[j] == x {
            held += 1;
        }
    }
    held
}

// The value of the first of k bins that more than half of n share.
pub fn majority(values: &[u64; Plan::NODES], k: usize, n: usize) -> Option<u64>
    requires { (k ≤ n) × (n ≤ most_nodes) }
    ensures { result ≡ majority_of (packed values.now k) n }
{
    let mut found = None;
    'candidates: for i in 0..k {
        let x = values[i];
        let mut held: usize = 0;
        for j in 0..k {
            if values[j] == x {
                held += 1;
                if n < 2 * held {
                    found = Some(x);
                    break 'candidates;
                }
            }
        }
    }
    found
}

// How many of the first k values are the voted one.
pub fn agreement(values: &[u64; Plan::NODES], k: usize, v: Option<u64>) -> usize
    requires { k ≤ most_nodes }
    ensures { result ≡ backing (packed values.now k) k v }
{
    let Some(x) = v else {
        return 0;
    };
    holders(values, k, x)
}

pub fn or_own(frames: usize, own: u16, v: Option<u64>) -> u16
    requires { frames ≤ most_frames }
    ensures { result ≡ or_own frames own v }
{
    let Some(x) = v else {
        return own;
    };
    if x < frames as u64 {
        return x as u16;
    }
    own
}

// The value that most of k nodes put out; of tied ones the remembered, else that of the lowest holder. By counting the holders of each:
fn most_held(values: &[u64; Plan::NODES], k: usize, remembered: u64) -> u64
    requires { k ≤ most_nodes }
    ensures { result ≡ plane_of (packed values.now k) k remembered }
{
    let mut best = remembered;
    let mut most = holders(values, k, best);
    for i in 0..k {
        let x = values[i];
        let held = holders(values, k, x);
        if most < held {
            best = x;
            most = held;
        }
    }
    best
}

// and where more than half put out one value, by that.
pub fn plane(values: &[u64; Plan::NODES], k: usize, remembered: u64) -> u64
    requires { k ≤ most_nodes }
    ensures { result ≡ plane_of (packed values.now k) k remembered }
{
    match majority(values, k, k) {
        Some(x) => x,
        None => most_held(values, k, remembered),
    }
}

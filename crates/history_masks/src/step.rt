// The masks so far are one number, a byte a mask, the newest lowest.
ghost use Rattle.std.specs.Prelude.{◌≡◌, ◌<◌, ◌≤◌};
ghost use Rattle.array.specs.Bit.{bit};
ghost use Rattle.history_masks.specs.Limits.{most_history_nodes};
ghost use Rattle.history_masks.specs.Code.{bad_in, Most};

// The nodes that were bad in one of the last `period` frames. Before power-on none was.
pub fn bad_in(past: u64, period: usize) -> u64
    ensures { result ≡ bad_in period 0 past }
{
    let mut masks: u64 = 0;
    let mut rest = past;
    for k in 0..period {
        if rest == 0 {
            return masks;
        }
        masks |= rest % 256;
        rest /= 256;
    }
    masks
}

// Bit b is set where more than half of the nodes are not among those of mask b.
pub fn most_masks(nodes: usize) -> u64
    requires { nodes ≤ most_history_nodes }
    ensures { Most nodes result }
{
    match nodes {
        1 => 0x1,
        2 => 0x1,
        3 => 0x17,
        4 => 0x117,
        5 => 0x117177f,
        _ => 0,
    }
}

pub fn most_work(most: u64, bad: u64) -> bool
    requires { bad < 64 }
    ensures { result ≡ bit most bad }
{
    (most >> bad) % 2 == 1
}

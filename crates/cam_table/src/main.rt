// Prints the cam's table from its rule, an entry a line, as the array of crates/cam has it; the gate compares the two.
#![tactic(auto)]

ghost use Rattle.std.specs.Prelude.{◌≡◌, ◌+◌, ◌-◌, ◌*◌, ◌/◌, ◌^◌, ◌≤◌};

use std::io;
use std::io::Write;

const LAST: u64 = 512;

// The widest number of 64 bits.
const WIDTH: usize = 20;

fn entry(i: u64) -> u64
    requires { i ≤ 512 }
    ensures { result ≡ (1536 * i ^ 2 - 2 * i ^ 3 + 1024) / 2048 }
{
    let square = i * i;
    (1536 * square - 2 * (square * i) + 1024) / 2048
}

fn print_line<R: Print>(rt: &R, v: u64) {
    let mut shown = [0u8; WIDTH];
    column_write::write(&mut shown, v);
    // A write that fails is passed over.
    let mut out = io::writer(rt);
    let _ = out.write_all(b"    ");
    let _ = out.write_all(column::digits(&shown, 0, WIDTH));
    let _ = out.write_all(b",\n");
}

fn main(rt: HostRuntime) {
    for i in 0..LAST + 1 {
        print_line(&rt, entry(i));
    }
}

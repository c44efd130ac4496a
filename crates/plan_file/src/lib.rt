// The file plan.txt, for the programs that read it.
#![tactic(auto)]

ghost use Rattle.std.specs.Prelude.{◌≤◌, length, take};
ghost use Rattle.std.specs.Io.KnownBytes.{Consumes};

use std::fs;
use std::io::Read;
use std::rt::Files;

// More than the longest plan text, so that a longer file is seen to be too long.
pub const TEXT: usize = plan_line::Line::TEXT + 1;

// Reads until the buffer is full, the input ends or a read fails, and gives how many bytes stand in the buffer's front then.
pub fn read_full<R: Read>(input: &mut R, buffer: &mut [u8]) -> usize
    ensures count { result ≤ length buffer.new }
    ensures bytes { Consumes (R.remaining input.old) (R.remaining input.new) (take result buffer.new) }
{
    // Each read says how far it came, so nothing counts the reads.
    let mut done: usize = 0;
    while done < buffer.len() {
        let Ok(n) = input.read(&mut buffer[done..]) else {
            return done;
        };
        if n == 0 {
            return done;
        }
        done += n;
    }
    done
}

// Fills the front of the buffer and gives how many bytes it has. A file that cannot be opened counts as empty.
pub fn read<R: Files>(rt: &R, text: &mut [u8]) -> usize
    ensures { result ≤ length text.new }
{
    let Ok(mut file) = fs::open(rt, "plan.txt") else {
        return 0;
    };
    read_full(&mut file, text)
}

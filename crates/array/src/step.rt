// Big-endian words of two and eight bytes, each of which requires that the word's place lies in the slice; a bit of a word; an entry of a slice; the copy of words.
ghost use Rattle.std.specs.Prelude.{◌≡◌, ◌++◌, ◌+◌, ◌*◌, ◌<◌, ◌≤◌, ◌^◌, length, take, drop, get_or};
ghost use Rattle.array.specs.Word.{be, bytes};
ghost use Rattle.array.specs.Bit.{bit};

// Each width by the library's function of its type: a trait over the two types would have these bodies again.
pub fn read_be2(s: &[u8], at: usize) -> u16
    requires { at + 2 ≤ length s.now }
    ensures { result ≡ be 2 s.now at }
{
    u16::from_be_bytes([s[at], s[at + 1]])
}

pub fn read_be8(s: &[u8], at: usize) -> u64
    requires { at + 8 ≤ length s.now }
    ensures { result ≡ be 8 s.now at }
{
    u64::from_be_bytes([
        s[at],
        s[at + 1],
        s[at + 2],
        s[at + 3],
        s[at + 4],
        s[at + 5],
        s[at + 6],
        s[at + 7],
    ])
}

pub fn write_be2(s: &mut [u8], at: usize, x: u16)
    requires { at + 2 ≤ length s.old }
    ensures { s.new ≡ take at s.old ++ (bytes 2 x ++ drop (at + 2) s.old) }
{
    s[at..at + 2].copy_from_slice(&x.to_be_bytes());
}

pub fn write_be8(s: &mut [u8], at: usize, x: u64)
    requires { at + 8 ≤ length s.old }
    ensures { s.new ≡ take at s.old ++ (bytes 8 x ++ drop (at + 8) s.old) }
{
    s[at..at + 8].copy_from_slice(&x.to_be_bytes());
}

pub fn is_set(w: u64, i: usize) -> bool
    requires { i < 64 }
    ensures { result ≡ bit w i }
{
    (w >> i) % 2 == 1
}

// An entry of a slice, or what is handed in past its end.
pub fn entry_or<T: Copy>(xs: &[T], i: usize, past: T) -> T
    ensures { result ≡ get_or xs.now i past }
{
    xs.get(i).copied().unwrap_or(past)
}

// Words copied to a place that is as long. std's `copy_from_slice` is compiled to a call of memmove, and the library for C may need memcpy and memset alone.
pub fn copy(from: &[u64], to: &mut [u64])
    requires { length from.now ≡ length to.old }
    ensures { to.new ≡ from.now }
{
    let n = from.len();
    for k in 0..n {
        to[k] = from[k];
    }
}

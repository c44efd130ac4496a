// Little-endian words in byte slices: the compiler makes one load or store of them.
ghost use Rattle.std.specs.Prelude.{◌≡◌, ◌+◌, ◌≤◌, length};
ghost use Rattle.array.specs.Code.{placed};
ghost use Rattle.word.specs.Word.{word_at, bytes_of, low_run};

// Each width by the library's function of its type: a trait over the two types would have these bodies again.
pub fn read_le4(s: &[u8], i: usize) -> u32
    requires { i + 4 ≤ length s.now }
    ensures { result ≡ word_at 4 s.now i }
{
    u32::from_le_bytes([s[i], s[i + 1], s[i + 2], s[i + 3]])
}

pub fn read_le8(s: &[u8], i: usize) -> u64
    requires { i + 8 ≤ length s.now }
    ensures { result ≡ word_at 8 s.now i }
{
    u64::from_le_bytes([
        s[i],
        s[i + 1],
        s[i + 2],
        s[i + 3],
        s[i + 4],
        s[i + 5],
        s[i + 6],
        s[i + 7],
    ])
}

// The four lowest bytes of a number, stored.
pub fn write_le4(out: &mut [u8], i: usize, w: u64)
    requires { i + 4 ≤ length out.old }
    ensures { out.new ≡ placed out.old i (bytes_of 4 w) }
{
    let low = (w % 4294967296) as u32;
    out[i..i + 4].copy_from_slice(&low.to_le_bytes());
}

pub fn write_le8(out: &mut [u8], i: usize, w: u64)
    requires { i + 8 ≤ length out.old }
    ensures { out.new ≡ placed out.old i (bytes_of 8 w) }
{
    out[i..i + 8].copy_from_slice(&w.to_le_bytes());
}

// How many of a number's eight bytes are zero, from the lowest up to the first other.
pub fn zero_bytes(w: u64) -> usize
    ensures { result ≡ low_run 0 8 w }
{
    (u64::trailing_zeros(w) / 8) as usize
}

// Stores into lent parts: numbers as little-endian bytes, over the start of the part.
#![tactic(auto)]

ghost use Rattle.std.specs.Prelude.{ℕ, ◌+◌, ◌*◌, ◌≤◌, List, length};
ghost use Rattle.rules.specs.Bytes.{bytes, each};
ghost use Rattle.store.specs.Filled.{Filled, numbers};
ghost use Rattle.store.specs.Records.{TakesRecords, Stores};

// v in w bytes at the start of s, the lowest first: one function and one law for 2, 4 and 8 bytes.
pub fn put(s: &mut [u8], w: usize, v: u64)
    requires { w ≤ length s.old }
    ensures { Filled (bytes w v) s.old s.new }
{
    let mut x = v;
    for byte in &mut s[..w] {
        *byte = (x % 256) as u8;
        x /= 256;
    }
}

// n records of one width, one after the other: `write` stores record i over the start of what it is lent.
pub fn records<F: Fn(usize, &mut [u8])>(s: &mut [u8], width: usize, n: usize, write: F)
    requires takes { TakesRecords F.Fn write width n }
    requires room { n * width ≤ length s.old }
    ensures { (f : ℕ → List ℕ) → Stores F.Fn write width n f → Filled (each f n) s.old s.new }
{
    for i in 0..n {
        write(i, &mut s[i * width..]);
    }
}

// n numbers of xs from the place `from` on, each in w bytes.
pub fn put_all(s: &mut [u8], w: usize, xs: &[u64], from: usize, n: usize)
    requires { (from + n ≤ length xs.now) × (n * w ≤ length s.old) }
    ensures { Filled (numbers w xs.now from n) s.old s.new }
{
    records(s, w, n, |i, part| put(part, w, xs[from + i]));
}

// The bytes of a piece at the start of s.
pub fn copy(s: &mut [u8], piece: &[u8])
    requires { length piece.now ≤ length s.old }
    ensures { Filled piece.now s.old s.new }
{
    s[..piece.len()].copy_from_slice(piece);
}

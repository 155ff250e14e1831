// "Numbers are little-endian": the number in two, four or eight bytes at an offset of a slice.
#![tactic(auto, unfolding(rules::specs::Bytes::le))]

ghost use Rattle.std.specs.Prelude.{◌≡◌, ◌+◌, ◌≤◌, ◌<◌, length};
ghost use Rattle.rules.specs.Bytes.{le};

// The two bytes at `at`.
pub fn le16(s: &[u8], at: usize) -> u64
    requires { at + 2 ≤ length s.now }
    ensures { (result ≡ le 2 s.now at) × (result < 65536) }
{
    u64::from(u16::from_le_bytes([s[at], s[at + 1]]))
}

// The four bytes at `at`.
pub fn le32(s: &[u8], at: usize) -> u64
    requires { at + 4 ≤ length s.now }
    ensures { (result ≡ le 4 s.now at) × (result < 4294967296) }
{
    u64::from(u32::from_le_bytes([s[at], s[at + 1], s[at + 2], s[at + 3]]))
}

// The eight bytes at `at`.
pub fn le64(s: &[u8], at: usize) -> u64
    requires { at + 8 ≤ length s.now }
    ensures { result ≡ le 8 s.now at }
{
    u64::from_le_bytes([
        s[at],
        s[at + 1],
        s[at + 2],
        s[at + 3],
        s[at + 4],
        s[at + 5],
        s[at + 6],
        s[at + 7],
    ])
}

// Lent bytes: total reads, numbers of 32 bits, copying, clearing, and the test for zeros.
#![tactic(auto)]

ghost use Rattle.std.specs.Prelude.{◌≡◌, ◌+◌, ◌*◌, ◌/◌, ◌%◌, ◌≤◌, ◌<◌, length};
ghost use Rattle.buffer.specs.Bytes.{byte, be32, bytes32, zeros};
ghost use Rattle.buffer.specs.ByteOrder.{le32};
ghost use Rattle.buffer.specs.Loops.{all_zero};

// The byte at a place, or 0 past the end.
pub fn byte_at(s: &[u8], at: usize) -> u8
    ensures { result ≡ byte s.now at }
{
    s.get(at).map_or(0, |x| *x)
}

// The little-endian number of 32 bits at a place whose four bytes are there, and the big-endian one: the compiler makes one load of each.
#[tactic(auto, unfolding(crate::specs::ByteOrder::le32))]
pub fn low32(s: &[u8], at: usize) -> u32
    requires { at + 4 ≤ length s.now }
    ensures { result ≡ le32 s.now at }
{
    u32::from_le_bytes([s[at], s[at + 1], s[at + 2], s[at + 3]])
}

#[tactic(auto, unfolding(crate::specs::Bytes::be32))]
pub fn load32(s: &[u8], at: usize) -> u32
    requires { at + 4 ≤ length s.now }
    ensures { result ≡ be32 s.now at }
{
    u32::from_be_bytes([s[at], s[at + 1], s[at + 2], s[at + 3]])
}

// The big-endian number of 32 bits at any place; bytes past the end count as 0.
#[tactic(auto, using(crate::specs::ByteLaws::be32_past), unfolding(crate::specs::Bytes::be32))]
pub fn get32(s: &[u8], at: usize) -> u32
    ensures { result ≡ be32 s.now at }
{
    if s.len() <= at {
        return 0;
    }
    u32::from_be_bytes([
        s[at],
        byte_at(s, at + 1),
        byte_at(s, at + 2),
        byte_at(s, at + 3),
    ])
}

// Writes a number into four bytes, high byte first.
#[tactic(auto, unfolding(crate::specs::Bytes::bytes32))]
pub fn put32(s: &mut [u8], x: u32)
    requires { length s.old ≡ 4 }
    ensures { s.new ≡ bytes32 x }
{
    s.copy_from_slice(&x.to_be_bytes());
}

// Copies bytes into a slice of the same length, one by one, which the compiler makes one call of memcpy or none. Where the length is not known, the
// library's copy calls memmove, which a C program need not have (include/lhrs.h).
pub fn copy(into: &mut [u8], from: &[u8])
    requires { length into.old ≡ length from.now }
    ensures { into.new ≡ from.now }
{
    for i in 0..into.len() {
        into[i] = from[i];
    }
}

// Makes every byte zero.
#[tactic(auto, unfolding(crate::specs::Bytes::zeros))]
pub fn clear(s: &mut [u8])
    ensures { s.new ≡ zeros (length s.old) }
{
    s.fill(0);
}

// Whether every byte is zero. All bytes are or-ed together and tested once: the compiler takes many at a time.
pub fn is_zero(s: &[u8]) -> bool
    ensures { result ≡ all_zero s.now }
{
    let mut any: u8 = 0;
    for x in s {
        any |= *x;
    }
    any == 0
}

// The same of a long stretch: its two halves at once, which share a byte where their number is odd, so that two loads are always under way.
pub fn is_zero_long(s: &[u8]) -> bool
    ensures { result ≡ all_zero s.now }
{
    let front = s.len() / 2;
    let half = s.len() - front;
    let mut first: u8 = 0;
    let mut second: u8 = 0;
    for i in 0..half {
        first |= s[i];
        second |= s[front + i];
    }
    first | second == 0
}

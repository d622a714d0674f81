// Reading a lent store: where its parts stand, and what the calls look up in it.
#![tactic(auto)]

pub mod decoders;
pub mod digits;
pub mod losses;

ghost use Rattle.std.specs.Prelude.{◌≡◌, true, ◌+◌, ◌*◌, ◌≤◌, ◌<◌, ℕ, ◌/◌, eqb, length, get_or};
ghost use Rattle.buffer.specs.Bytes.{byte};
ghost use Rattle.buffer.specs.Range.{first};
ghost use Rattle.code.specs.Matrix.{within};
ghost use Rattle.group.specs.Widths.{field_bytes, slot_bytes};
ghost use Rattle.group.specs.Rebuilding.{weighed};
ghost use Rattle.model.specs.Units.{power_below, split_pointer, unit_of};
ghost use Rattle.model.specs.Layout.{view, header_bytes, slot_at, check_at, key_of};
ghost use Rattle.model.specs.Reads.{state_in, holds, first_check, listed_fill, listed_rank, whole_slot};
ghost use Rattle.lookup.specs.Sized.{Sized};
ghost use Rattle.buffer.specs.Strided.{strided32, Within};
ghost use Rattle.lookup.specs.Keys.{keys_at, keys_from, keys_step, Known};
ghost use Rattle.lookup.specs.Groups.{Rebuildable};
ghost use Rattle.lookup.specs.Slots.{held_at};
ghost use Rattle.lookup.specs.Decoders.{DecoderOf};

use crate::decoders::Decoder;

// The header of a store: what byte 0 holds, where the length, b, M, K and the states of data units and check units stand, and where the slots begin.
pub const VERSION: u8 = 4;

pub const LENGTH_AT: usize = 1;

pub const SIZE_AT: usize = 5;

pub const UNITS_AT: usize = 6;

pub const LEVEL_AT: usize = 7;

pub const DATA_STATES: usize = 8;

pub const CHECK_STATES: usize = 24;

pub const HEADER: usize = 36;

// The states of units. One that is not in place has 0; a byte of a store may be any number, so states are read as numbers.
pub const IN_SERVICE: u8 = 1;

pub const OUT: u8 = 2;

// The bytes for each rank of the 16 data units, and of these with the 12 check units.
pub const DATA_PER_RANK: usize = 16 * group::SLOT;

pub const PER_RANK: usize = DATA_PER_RANK + 12 * group::CHECK;

// The product of two bytes.
fn product(a: u8, b: u8) -> usize
    ensures { (result ≡ a * b) × (result ≤ 65025) }
{
    usize::from(a) * usize::from(b)
}

// Where the slot of rank r in data unit u stands, with b ranks to a unit.
pub fn slot_at(b: u8, u: u8, r: u8) -> usize
    ensures { (result ≡ slot_at b u r) × (result < 2000000) }
{
    HEADER + (product(u, b) + usize::from(r)) * group::SLOT
}

// Where the check record of rank r in check unit c stands.
pub fn check_at(b: u8, c: u8, r: u8) -> usize
    ensures { (result ≡ check_at b c r) × (result < 3000000) }
{
    HEADER + DATA_PER_RANK * usize::from(b) + (product(c, b) + usize::from(r)) * group::CHECK
}

// The largest power of two that is at most m, for m from 1 to 16.
pub fn power_below(m: u8) -> u8
    ensures { (result ≡ power_below m) × (1 ≤ result) × (result ≤ 16) }
{
    match m {
        0..=1 => 1,
        2..=3 => 2,
        4..=7 => 4,
        8..=15 => 8,
        _ => 16,
    }
}

// The unit that is split next, of m units.
pub fn split_pointer(m: u8) -> u8
    requires { 1 ≤ m }
    ensures { (result ≡ split_pointer m) × (result < m) }
{
    m - power_below(m)
}

// The unit of a key among m units. From the two remainders on there is one path, with no branch, comparison or call (`tests/one_path`): n + 255 - first
// is below 512, and at least 256 exactly where the first remainder is below n; `below` is 1 there and else 0. The second remainder is never the smaller.
// Its code stands once: where the compiler copies it into a caller that knows m, it may choose by a jump.
#[inline(never)]
pub fn unit_of(m: u8, key: u32) -> u8
    requires { 1 ≤ m }
    ensures { (result ≡ unit_of m key) × (result < m) }
{
    let p = u32::from(power_below(m));
    let n = u32::from(split_pointer(m));
    let sum = digits::digit_sum(key);
    let first = sum % p;
    let second = sum % (2 * p);
    let below = (n + 255 - first) / 256;
    (first + below * (second - first)) as u8
}

// The state of a unit: 0 to 15 data, 16 + 3g + j check.
pub fn state(s: &[u8], w: u8) -> u8
    ensures { result ≡ state_in (view s.now) w }
{
    buffer::byte_at(s, DATA_STATES + usize::from(w))
}

// Where the keys of a unit stand: the first, and how far each is from the one before.
#[derive(Clone, Copy)]
pub struct Keys {
    pub base: usize,
    pub step: usize,
}

// The rank of a key among the first n of a unit's keys; n where it is not there. All are looked at, from the last one down: nothing depends on where
// the key is, and the compiler needs no branch for it.
fn find(s: &[u8], keys: Keys, n: u8, key: u32) -> u8
    requires { Within s.now keys.base keys.step n }
    ensures { (result ≡ first n (λ i. eqb (strided32 s.now keys.base keys.step i) key)) × (result ≤ n) }
{
    let mut found = n;
    for i in (0..n).rev() {
        if buffer::load32(s, keys.base + keys.step * usize::from(i)) == key {
            found = i;
        }
    }
    found
}

// The key of the slot of rank r in data unit u.
pub fn key_at(s: &[u8], u: u8, r: u8) -> u32
    requires { Sized s.now × (u < 16) × (r < byte s.now 5) }
    ensures { result ≡ key_of ((view s.now).slot u r) }
{
    buffer::load32(s, slot_at(s[SIZE_AT], u, r))
}

// The rank of a key among the first n slots of data unit u; n where it is not there: the number that the model's definition gives.
pub fn rank(s: &[u8], u: u8, n: u8, key: u32) -> u8
    requires { Sized s.now × (u < 16) × (n ≤ byte s.now 5) }
    ensures { (result ≡ first n (λ q. eqb (key_of ((view s.now).slot u q)) key)) × (result ≤ n) }
{
    let keys = Keys {
        base: slot_at(s[SIZE_AT], u, 0),
        step: group::SLOT,
    };
    find(s, keys, n, key)
}

// The first check unit in service of group g, or 3g + 3, as in the model.
pub fn first_check(s: &[u8], g: u8) -> u8
    requires { (g < 4) × (header_bytes ≤ length s.now) }
    ensures { (result ≡ first_check (view s.now) g) × (result ≤ 3 * g + 3) }
{
    for j in 0u8..3 {
        if s[CHECK_STATES + usize::from(3 * g + j)] == IN_SERVICE {
            return 3 * g + j;
        }
    }
    3 * g + 3
}

// Where c, the first check unit in service of its group, lists the keys of data unit u: the first, and each next one a check record on.
pub fn keys_at(s: &[u8], u: u8, c: u8) -> usize
    requires { Sized s.now × (c ≡ first_check (view s.now) (u / 4)) }
    ensures { result ≡ keys_at s.now u }
{
    check_at(s[SIZE_AT], c, 0) + group::KEY * usize::from(u % 4)
}

// The keys of data unit u: its own, or for a unit that is out those that c lists, the first check unit in service of its group.
pub fn keys_of(s: &[u8], u: u8, c: u8) -> Keys
    requires { Known s.now u × (c ≡ first_check (view s.now) (u / 4)) }
    ensures { (result.base ≡ keys_from s.now u) × (result.step ≡ keys_step s.now u) }
{
    if state(s, u) == OUT {
        return Keys {
            base: keys_at(s, u, c),
            step: group::CHECK,
        };
    }
    Keys {
        base: slot_at(s[SIZE_AT], u, 0),
        step: group::SLOT,
    }
}

// The rank of a key among the n that are listed for data unit u, with the first check unit c in service of its group; n where it is not there.
pub fn listed_rank(s: &[u8], u: u8, c: u8, n: u8, key: u32) -> u8
    requires { Known s.now u × (c ≡ first_check (view s.now) (u / 4)) × (n ≡ listed_fill (view s.now) u) × (n ≤ byte s.now 5) }
    ensures { (result ≡ listed_rank (view s.now) u key) × (result ≤ n) }
{
    find(s, keys_of(s, u, c), n, key)
}

// Where member m of group g holds the field or the parity of rank r.
fn held_at(b: u8, g: u8, r: u8, m: u8) -> usize
    requires { (g < 4) × (m < 7) }
    ensures { (result ≡ held_at b g r m) × (result < 4000000) }
{
    if m < 4 {
        return slot_at(b, 4 * g + m, r) + group::KEY;
    }
    check_at(b, 3 * g + (m - 4), r) + group::KEYS
}

// The field or the parity that member m of group g holds at rank r.
pub fn held(s: &[u8], g: u8, r: u8, m: u8) -> &[u8]
    requires { Sized s.now × (g < 4) × (r < byte s.now 5) × (m < 7) }
    ensures bytes { result.now ≡ holds (view s.now) g r m }
    ensures start { result.ref_ptr ≡ (s.entry.ref_ptr.0, s.entry.ref_ptr.1 + held_at (byte s.now 5) g r m) }
{
    let at = held_at(s[SIZE_AT], g, r, m);
    &s[at..at + group::FIELD]
}

// Rebuilds a field of rank r from what a decoder's four members of group g hold, each times its weight.
pub fn rebuild_field(
    out: &mut [u8],
    s: &[u8],
    g: u8,
    r: u8,
    decoder: Decoder,
    products: &group::Products,
)
    requires { (length out.old ≡ field_bytes) × Sized s.now × (g < 4) × (r < byte s.now 5) × ((i : ℕ) → i < 4 → get_or decoder.members i 0 < 7)
        × (within 15 decoder.weights ≡ true) }
    ensures { out.new ≡ weighed decoder.weights (λ i. holds (view s.now) g r (get_or decoder.members i 0)) }
{
    let members = decoder.members;
    let a = held(s, g, r, members[0]);
    let b = held(s, g, r, members[1]);
    let c = held(s, g, r, members[2]);
    let d = held(s, g, r, members[3]);
    group::rebuild_body(out, decoder.weights, a, b, c, d, products)
}

// Rebuilds the slot of rank r of data unit u, whose record is missing, by the decoder of that rank. The keys of the unit are listed from keys on.
pub fn rebuild_slot(
    out: &mut [u8],
    s: &[u8],
    u: u8,
    r: u8,
    keys: usize,
    decoder: Decoder,
    products: &group::Products,
)
    requires { (length out.old ≡ slot_bytes) × Rebuildable s.now u r × DecoderOf s.now u r decoder.members decoder.weights decoder.until
        × (keys ≡ keys_at s.now u) }
    ensures { out.new ≡ whole_slot (view s.now) u r }
{
    let at = keys + group::CHECK * usize::from(r);
    out[0..group::KEY].copy_from_slice(&s[at..at + group::KEY]);
    rebuild_field(
        &mut out[group::KEY..group::SLOT],
        s,
        u / 4,
        r,
        decoder,
        products,
    );
}

// An index of keys in a lent slice: a count of 16 bits, then entries of key (32 bits), unit and rank (8 bits each), big-endian, by rising key, zeros to the
// slice's end. Nothing here knows of a store.
#![tactic(auto)]

pub mod writing;

ghost use Rattle.std.specs.Prelude.{◌≡◌, ◌+◌, ◌*◌, ◌≤◌, ◌<◌, length};
ghost use Rattle.index.specs.Entries.{entry_at};
ghost use Rattle.index.specs.Reading.{count_in, read_key, entry_in};
ghost use Rattle.index.specs.Form.{KeysRise, place_for, found_in, zero_behind};

// The widths of the count and of an entry, and where unit and rank stand in an entry.
pub const COUNT: usize = 2;

pub const ENTRY: usize = 6;

pub const UNIT_AT: usize = 4;

pub const RANK_AT: usize = 5;

// A key, and the unit and rank where its record is.
#[derive(Clone, Copy, PartialEq, Eq)]
pub struct Entry {
    pub key: u32,
    pub unit: u8,
    pub rank: u8,
}

// The first `count` entries of a slice, whose keys rise.
#[derive(Clone, Copy)]
pub struct Entries<'a> {
    pub bytes: &'a [u8],
    pub count: usize,
    ghost fits: { entry_at count ≤ length bytes.now },
    ghost rise: { KeysRise bytes.now count },
}

// How many entries there are, by the count.
#[tactic(auto, unfolding(crate::specs::Reading::count_in))]
pub fn count_in(x: &[u8]) -> usize
    ensures { (result ≡ count_in x.now) × (result < 65536) }
{
    usize::from(u16::from_be_bytes([buffer::byte_at(x, 0), buffer::byte_at(x, 1)]))
}

// The key of entry i, which is there, and all of it.
pub fn key_at(x: &[u8], i: usize) -> u32
    requires { entry_at (i + 1) ≤ length x.now }
    ensures { result ≡ read_key x.now i }
{
    buffer::load32(x, COUNT + ENTRY * i)
}

pub fn entry_in(x: &[u8], i: usize) -> Entry
    requires { entry_at (i + 1) ≤ length x.now }
    ensures { result ≡ entry_in x.now i }
{
    let at = COUNT + ENTRY * i;
    Entry {
        key: key_at(x, i),
        unit: x[at + UNIT_AT],
        rank: x[at + RANK_AT],
    }
}

impl Entries<'_> {
    // The first place whose key is not below this one; the count where there is none. Halves what is left.
    pub fn search(&self, key: u32) -> usize
        ensures { (result ≡ place_for self.now.bytes.now self.now.count key) × (result ≤ self.now.count) }
    {
        let (entries, _) = self.bytes[COUNT..COUNT + ENTRY * self.count].as_chunks::<ENTRY>();
        entries.partition_point(|entry| buffer::load32(entry, 0) < key)
    }

    // The place of a key, where it is there.
    pub fn find(&self, key: u32) -> Option<usize>
        ensures { result ≡ found_in self.now.bytes.now self.now.count key }
    {
        let i = self.search(key);
        if i < self.count && key_at(self.bytes, i) == key {
            Some(i)
        } else {
            None
        }
    }
}

// Whether all bytes behind the first n entries are zero.
#[tactic(auto, unfolding(crate::specs::Form::zero_behind))]
pub fn zero_behind(x: &[u8], n: usize) -> bool
    requires { entry_at n ≤ length x.now }
    ensures { result ≡ zero_behind x.now n }
{
    buffer::is_zero(&x[COUNT + ENTRY * n..])
}

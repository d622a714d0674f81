// Entries put in, taken out and changed. The slice is lent beside the count: between two steps of a write the keys don't rise.
ghost use Rattle.std.specs.Prelude.{◌≡◌, ◌+◌, ◌*◌, ◌≤◌, ◌<◌, length};
ghost use Rattle.buffer.specs.Bytes.{splice};
ghost use Rattle.index.specs.Entries.{count_bytes, entry_width, entry_at, entry_bytes, bytes16};
ghost use Rattle.index.specs.Form.{KeysRise, place_for, inserted_in, removed_in, changed_in};

use crate::{COUNT, ENTRY, Entries, Entry, RANK_AT, UNIT_AT};

// Writes the count.
#[tactic(auto, using(crate::proofs::WriteLaws::low16), unfolding(buffer::specs::Bytes::splice))]
pub fn put_count(x: &mut [u8], n: usize)
    requires { count_bytes ≤ length x.old }
    ensures { x.new ≡ splice 0 count_bytes (bytes16 n) x.old }
{
    let count = (n % 65536) as u16;
    x[..COUNT].copy_from_slice(&count.to_be_bytes());
}

// Writes an entry at a place.
pub fn put_entry(x: &mut [u8], at: usize, entry: Entry)
    requires { at + entry_width ≤ length x.old }
    ensures { x.new ≡ splice at entry_width (entry_bytes entry) x.old }
{
    buffer::put32(&mut x[at..at + 4], entry.key);
    x[at + UNIT_AT] = entry.unit;
    x[at + RANK_AT] = entry.rank;
}

// Puts an entry in at place i of n.
#[tactic(auto, using(crate::proofs::WriteLaws::copied, crate::proofs::WriteLaws::inserted_steps))]
pub fn insert(x: &mut [u8], n: usize, i: usize, entry: Entry)
    requires { (i ≤ n) × (entry_at (n + 1) ≤ length x.old) }
    ensures { x.new ≡ inserted_in n i entry x.old }
{
    let at = COUNT + ENTRY * i;
    let end = COUNT + ENTRY * n;
    x.copy_within(at..end, at + ENTRY);
    put_entry(x, at, entry);
    put_count(x, n + 1);
}

// Takes the entry at place i of n out.
pub fn remove(x: &mut [u8], n: usize, i: usize)
    requires { (i < n) × (entry_at n ≤ length x.old) }
    ensures { x.new ≡ removed_in n i x.old }
{
    let at = COUNT + ENTRY * i;
    let last = COUNT + ENTRY * (n - 1);
    x.copy_within(at + ENTRY..last + ENTRY, at);
    buffer::clear(&mut x[last..last + ENTRY]);
    put_count(x, n - 1);
}

// Gives entry i another unit and rank.
pub fn set_place(x: &mut [u8], i: usize, unit: u8, rank: u8)
    requires { entry_at (i + 1) ≤ length x.old }
    ensures { x.new ≡ changed_in i unit rank x.old }
{
    let at = COUNT + ENTRY * i;
    x[at + UNIT_AT] = unit;
    x[at + RANK_AT] = rank;
}

// ---- by key, in n entries that rise

// Puts an entry into its place.
pub fn add(x: &mut [u8], n: usize, entry: Entry)
    requires { (entry_at (n + 1) ≤ length x.old) × KeysRise x.old n }
    ensures { x.new ≡ inserted_in n (place_for x.old n entry.key) entry x.old }
{
    let i = Entries { bytes: x, count: n }.search(entry.key);
    insert(x, n, i, entry);
}

// Takes the entry of a key out, which is there.
pub fn take_out(x: &mut [u8], n: usize, key: u32)
    requires { (entry_at n ≤ length x.old) × KeysRise x.old n × (place_for x.old n key < n) }
    ensures { x.new ≡ removed_in n (place_for x.old n key) x.old }
{
    let i = Entries { bytes: x, count: n }.search(key);
    remove(x, n, i);
}

// Gives the entry of this one's key, which is there, this one's unit and rank.
pub fn move_to(x: &mut [u8], n: usize, entry: Entry)
    requires { (entry_at n ≤ length x.old) × KeysRise x.old n × (place_for x.old n entry.key < n) }
    ensures { x.new ≡ changed_in (place_for x.old n entry.key) entry.unit entry.rank x.old }
{
    let i = Entries { bytes: x, count: n }.search(entry.key);
    set_place(x, i, entry.unit, entry.rank);
}

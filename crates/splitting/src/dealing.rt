// Records dealt out to two units in place, and put back behind those of one.
ghost use Rattle.std.specs.Prelude.{◌≡◌, ◌+◌, ◌≤◌, ◌<◌};
ghost use Rattle.buffer.specs.Bytes.{byte, splice};
ghost use Rattle.group.specs.Widths.{slot_bytes};
ghost use Rattle.model.specs.Layout.{bytes, view, slot_at};
ghost use Rattle.model.specs.Places.{Long, SlotIn};
ghost use Rattle.model.specs.Parts.{with_slots};
ghost use Rattle.model.specs.Reads.{fill_in};
ghost use Rattle.model.specs.Changes.{dealt, merged};
ghost use Rattle.splitting.specs.Steps.{Split, Merges, cleared};

// Copies slot (u, r) to slot (v, q).
fn move_record(s: &mut [u8], u: u8, r: u8, v: u8, q: u8)
    requires { SlotIn s.old u r × SlotIn s.old v q }
    ensures { s.new ≡ splice (slot_at (byte s.old 5) v q) slot_bytes ((view s.old).slot u r) s.old }
{
    let b = s[lookup::SIZE_AT];
    let from = lookup::slot_at(b, u, r);
    let to = lookup::slot_at(b, v, q);
    let mut held = [0u8; group::SLOT];
    held.copy_from_slice(&s[from..from + group::SLOT]);
    s[to..to + group::SLOT].copy_from_slice(&held);
}

// Empties the slots of unit u from rank q on.
fn clear_from(s: &mut [u8], u: u8, q: u8)
    requires { Long s.old × (u < 16) × (q ≤ byte s.old 5) }
    ensures { s.new ≡ bytes (cleared (view s.old) u q) }
{
    let b = s[lookup::SIZE_AT];
    let from = lookup::slot_at(b, u, q);
    let to = lookup::slot_at(b, u, b);
    buffer::clear(&mut s[from..to]);
}

// Deals the records of unit n, which has count of them, out to units n and m, in place: no record is written over before it is read.
pub fn deal_out(s: &mut [u8], n: u8, m: u8, count: u8)
    requires { Split s.old n m × (count ≡ fill_in (view s.old) n) }
    ensures { s.new ≡ bytes (with_slots (view s.old) (dealt (view s.old) m)) }
{
    let mut kept: u8 = 0;
    let mut gone: u8 = 0;
    for t in 0..count {
        let key = lookup::key_at(s, n, t);
        if lookup::unit_of(m + 1, key) == m {
            move_record(s, n, t, m, gone);
            gone += 1;
        } else {
            move_record(s, n, t, n, kept);
            kept += 1;
        }
    }
    clear_from(s, n, kept);
    clear_from(s, m, gone);
}

// Two units that are put together: the last, which has `more` records, and the one that it was split from, which has `count`.
#[derive(Clone, Copy)]
pub struct Merge {
    pub into: u8,
    pub last: u8,
    pub count: u8,
    pub more: u8,
}

// Moves the records of the last unit behind those of the other, where there is room for them.
pub fn merge_into(s: &mut [u8], merge: Merge)
    requires { Merges s.old merge }
    ensures { s.new ≡ bytes (with_slots (view s.old) (merged (view s.old) merge.last)) }
{
    let n = merge.into;
    let m = merge.last;
    let count = merge.count;
    let more = merge.more;
    for t in 0..more {
        move_record(s, m, t, n, count + t);
    }
    clear_from(s, n, count + more);
    clear_from(s, m, 0);
}

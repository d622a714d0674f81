// Where the units of a store lie, and the zeros among them.
ghost use Rattle.std.specs.Prelude.{◌≡◌, ◌+◌, ◌*◌, ◌/◌, ◌≤◌, ◌<◌, length};
ghost use Rattle.group.specs.Widths.{slot_bytes, check_bytes};
ghost use Rattle.model.specs.Layout.{header_bytes, store_bytes, slot_at, check_at};
ghost use Rattle.soundness.specs.Pieces.{zero_between};

pub fn zero_between(s: &[u8], at: usize, end: usize) -> bool
    requires { (at ≤ end) × (end ≤ length s.now) }
    ensures { result ≡ zero_between s.now at end }
{
    buffer::is_zero(&s[at..end])
}

// The first slot of data unit u, and the first record of check unit c: all b of them lie within the store.
pub fn slots_at(b: u8, u: u8) -> usize
    requires { u < 16 }
    ensures { (result ≡ slot_at b u 0) × (result + slot_bytes * b ≤ header_bytes + 16 * slot_bytes * b) }
{
    lookup::slot_at(b, u, 0)
}

pub fn checks_at(b: u8, c: u8) -> usize
    requires { c < 12 }
    ensures { (result ≡ check_at b c 0) × (result + check_bytes * b ≤ store_bytes b) }
{
    lookup::check_at(b, c, 0)
}

// Check units made anew from the data: those in service of a group together, or one.
#![tactic(auto)]

ghost use Rattle.std.specs.Prelude.{◌≡◌, ◌++◌, ◌+◌, ◌*◌, ◌≤◌, ◌<◌, length, take, drop};
ghost use Rattle.buffer.specs.Bytes.{byte, splice};
ghost use Rattle.buffer.specs.Table.{tab};
ghost use Rattle.group.specs.Widths.{key_bytes, keys_bytes, field_bytes};
ghost use Rattle.group.specs.Parity.{parity};
ghost use Rattle.model.specs.Layout.{bytes, view, slot_at};
ghost use Rattle.model.specs.Places.{Long, CheckIn};
ghost use Rattle.encoding.specs.Ranks.{RankIn};
ghost use Rattle.encoding.specs.Made.{made_record, made_at, made, made_in, is_unit, in_group, in_state, at_rank};

use group::parities::Rows;

// The width of a field, or of a parity.
type Field = [u8; group::FIELD];

// The four keys of rank r of group g, one behind the other.
fn keys_of_rank(s: &[u8], g: u8, r: u8) -> [u8; group::KEYS]
    requires { RankIn s.now g r }
    ensures { result ≡ tab 4 (λ p. take key_bytes ((view s.now).slot (4 * g + p) r)) }
{
    let b = s[lookup::SIZE_AT];
    let mut keys = [0u8; group::KEYS];
    for p in 0u8..4 {
        let at = group::KEY * usize::from(p);
        let from = lookup::slot_at(b, 4 * g + p, r);
        keys[at..at + group::KEY].copy_from_slice(&s[from..from + group::KEY]);
    }
    keys
}

// ---- the check units in service of a group
// The parities of rank r of group g at the three check places. They are lent: handed back as a tuple they are copied, and `make_group` takes a tenth longer.
fn fill_parities(x: &mut Field, y: &mut Field, z: &mut Field, s: &[u8], g: u8, r: u8, rows: &Rows)
    requires { RankIn s.now g r }
    ensures { (x.new ≡ parity 0 (λ p. drop key_bytes ((view s.now).slot (4 * g + p) r)))
        × (y.new ≡ parity 1 (λ p. drop key_bytes ((view s.now).slot (4 * g + p) r)))
        × (z.new ≡ parity 2 (λ p. drop key_bytes ((view s.now).slot (4 * g + p) r))) }
{
    let size = s[lookup::SIZE_AT];
    let a = lookup::slot_at(size, 4 * g, r);
    let b = lookup::slot_at(size, 4 * g + 1, r);
    let c = lookup::slot_at(size, 4 * g + 2, r);
    let d = lookup::slot_at(size, 4 * g + 3, r);
    rows.fill(
        x,
        y,
        z,
        &s[a + group::KEY..a + group::SLOT],
        &s[b + group::KEY..b + group::SLOT],
        &s[c + group::KEY..c + group::SLOT],
        &s[d + group::KEY..d + group::SLOT],
    );
}

// Rank r of check unit c, if the unit is in service, gets its keys and its parity. Both come by value: the compiler copies a whole array at once.
fn put_serving(s: &mut [u8], c: u8, r: u8, keys: [u8; group::KEYS], parity: Field)
    requires { CheckIn s.old c r × (keys ++ parity ≡ made_record (view s.old) c r) }
    ensures { s.new ≡ bytes (made_at (at_rank r (in_state 1 (view s.old) (is_unit c))) (view s.old)) }
{
    if s[lookup::CHECK_STATES + usize::from(c)] == lookup::IN_SERVICE {
        let at = lookup::check_at(s[lookup::SIZE_AT], c, r);
        s[at..at + group::KEYS].copy_from_slice(&keys);
        s[at + group::KEYS..at + group::CHECK].copy_from_slice(&parity);
    }
}

// Makes the check records in service of group g at rank r anew.
fn make_rank(s: &mut [u8], g: u8, r: u8, rows: &Rows)
    requires { RankIn s.old g r }
    ensures { s.new ≡ bytes (made_at (at_rank r (in_state 1 (view s.old) (in_group g))) (view s.old)) }
{
    let keys = keys_of_rank(s, g, r);
    let mut x = [0u8; group::FIELD];
    let mut y = [0u8; group::FIELD];
    let mut z = [0u8; group::FIELD];
    fill_parities(&mut x, &mut y, &mut z, s, g, r, rows);
    put_serving(s, 3 * g, r, keys, x);
    put_serving(s, 3 * g + 1, r, keys, y);
    put_serving(s, 3 * g + 2, r, keys, z);
}

// Makes the check units in service of group g, if there are any, anew, rank by rank.
pub fn make_group(s: &mut [u8], g: u8, rows: &Rows)
    requires { Long s.old × (g < 4) }
    ensures { s.new ≡ bytes (made_in 1 (in_group g) (view s.old)) }
{
    if lookup::first_check(s, g) == 3 * g + 3 {
        return;
    }
    let b = s[lookup::SIZE_AT];
    for r in 0..b {
        make_rank(s, g, r, rows);
    }
}

// ---- one check unit
// The parity of rank r of group g at check place j, written from `to` on, behind all slots: that of the fields exchanged by pairs, at check place 0.
fn write_parity(s: &mut [u8], to: usize, g: u8, j: u8, r: u8, rows: &Rows)
    requires { RankIn s.old g r × (j < 3) × (slot_at (byte s.old 5) 16 0 ≤ to) × (to + field_bytes ≤ length s.old) }
    ensures { s.new ≡ splice to field_bytes (parity j (λ p. drop key_bytes ((view s.old).slot (4 * g + p) r))) s.old }
{
    let size = s[lookup::SIZE_AT];
    let a = lookup::slot_at(size, 4 * g + (0 ^ j), r) + group::KEY;
    let b = lookup::slot_at(size, 4 * g + (1 ^ j), r) + group::KEY;
    let c = lookup::slot_at(size, 4 * g + (2 ^ j), r) + group::KEY;
    let d = lookup::slot_at(size, 4 * g + (3 ^ j), r) + group::KEY;
    rows.write_first(s, to, a, b, c, d);
}

// Makes the check record of rank r in check unit c anew.
fn make_record(s: &mut [u8], c: u8, r: u8, rows: &Rows)
    requires { CheckIn s.old c r }
    ensures { s.new ≡ bytes (made_at (at_rank r (is_unit c)) (view s.old)) }
{
    let at = lookup::check_at(s[lookup::SIZE_AT], c, r);
    let keys = keys_of_rank(s, c / 3, r);
    write_parity(s, at + group::KEYS, c / 3, c % 3, r, rows);
    s[at..at + group::KEYS].copy_from_slice(&keys);
}

// Makes check unit c anew from the data, rank by rank.
pub fn make_unit(s: &mut [u8], c: u8, rows: &Rows)
    requires { Long s.old × (c < 12) }
    ensures { s.new ≡ bytes (made (is_unit c) (view s.old)) }
{
    let b = s[lookup::SIZE_AT];
    for r in 0..b {
        make_record(s, c, r, rows);
    }
}

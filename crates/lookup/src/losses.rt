// Records that are missing: their data unit is out, and a check unit in service lists a key at their rank. Rank by rank this decides what can be rebuilt,
// by which members, and what is beyond recovery. fills are the numbers of keys listed for each data unit, c is the first check unit in service of a group.
// They travel beside the store, not with it in a struct: repair changes the store between two calls.
ghost use Rattle.std.specs.Prelude.{◌≡◌, not, ◌&&◌, ℕ, ◌+◌, ◌*◌, ◌/◌, ◌<◌, eqb, get_or};
ghost use Rattle.buffer.specs.Choice.{pick};
ghost use Rattle.buffer.specs.Bytes.{part};
ghost use Rattle.buffer.specs.Loops.{entries};
ghost use Rattle.group.specs.Members.{first_four};
ghost use Rattle.model.specs.Layout.{view};
ghost use Rattle.model.specs.Reads.{outs_in, first_check, missing_in, serves_in, rebuildable_in, keys_lost_in, beyond_in, lost_in};
ghost use Rattle.lookup.specs.Sized.{Sized};
ghost use Rattle.lookup.specs.Groups.{Counts, CountsKnown};

use crate::OUT;

// Whether the record of rank r at place p of group g is missing.
pub fn missing(s: &[u8], g: u8, p: u8, r: u8, fills: [u8; 16]) -> bool
    requires { (g < 4) × (p < 4) × Counts s.now g fills }
    ensures { result ≡ missing_in (view s.now) (4 * g + p) r }
{
    let u = 4 * g + p;
    crate::state(s, u) == OUT && r < fills[usize::from(u)]
}

// The same of all four places, 1 for each that is missing and else 0, as `group` takes them.
fn missing_at(s: &[u8], g: u8, r: u8, fills: [u8; 16]) -> [u8; 4]
    requires { (g < 4) × Counts s.now g fills }
    ensures { result ≡ entries 4 (λ p. pick (missing_in (view s.now) (4 * g + p) r) 1 0) }
{
    [
        u8::from(missing(s, g, 0, r, fills)),
        u8::from(missing(s, g, 1, r, fills)),
        u8::from(missing(s, g, 2, r, fills)),
        u8::from(missing(s, g, 3, r, fills)),
    ]
}

// The states of the three check units of group g. A pointer is a block and a place in it: `start` says that the part is handed back where it stands in
// the store.
fn check_states(s: &[u8], g: u8) -> &[u8]
    requires { Sized s.now × (g < 4) }
    ensures bytes { result.now ≡ part (24 + 3 * g) 3 s.now }
    ensures start { result.ref_ptr ≡ (s.entry.ref_ptr.0, s.entry.ref_ptr.1 + (24 + 3 * g)) }
{
    let at = crate::CHECK_STATES + 3 * usize::from(g);
    &s[at..at + 3]
}

// Whether rank r of group g can be rebuilt.
pub fn rebuildable(s: &[u8], g: u8, r: u8, fills: [u8; 16]) -> bool
    requires { Sized s.now × (g < 4) × Counts s.now g fills }
    ensures { result ≡ rebuildable_in (view s.now) g r }
{
    let missing = missing_at(s, g, r, fills);
    group::rebuildable(&missing, check_states(s, g))
}

// The first four members in service of group g at rank r.
pub fn members(s: &[u8], g: u8, r: u8, fills: [u8; 16]) -> [u8; 4]
    requires { Sized s.now × (g < 4) × Counts s.now g fills }
    ensures { result ≡ first_four (serves_in (view s.now) g r) }
{
    let missing = missing_at(s, g, r, fills); // a unit that is out and has no record there serves, all zero
    group::first_four(&missing, check_states(s, g))
}

// Whether the keys of data unit u are lost: it is out, and no check unit of its group is in service.
pub fn keys_lost(s: &[u8], u: u8, c: u8) -> bool
    requires { (u < 16) × (c ≡ first_check (view s.now) (u / 4)) }
    ensures { result ≡ keys_lost_in (view s.now) u }
{
    crate::state(s, u) == OUT && c == 3 * (u / 4) + 3
}

// Whether data unit u is out and rank r of its group can't be rebuilt.
pub fn gone(s: &[u8], u: u8, r: u8, fills: [u8; 16]) -> bool
    requires { Sized s.now × (u < 16) × ((view s.now).dstate u ≡ 2 → Counts s.now (u / 4) fills) }
    ensures { result ≡ (eqb ((view s.now).dstate u) 2 && not (rebuildable_in (view s.now) (u / 4) r)) }
{
    crate::state(s, u) == OUT && !rebuildable(s, u / 4, r, fills)
}

// Whether group g, of which outs units are out, is beyond recovery. Lists have no gaps, so no rank misses more records than the first one does: it decides
// for all.
pub fn beyond(s: &[u8], g: u8, outs: u8, fills: [u8; 16], c: u8) -> bool
    requires { Sized s.now × (g < 4) × (outs ≡ outs_in (view s.now) g) × CountsKnown s.now g fills × (c ≡ first_check (view s.now) g) }
    ensures { result ≡ beyond_in (view s.now) g }
{
    if outs == 0 {
        return false;
    }
    for p in 0u8..4 {
        if keys_lost(s, 4 * g + p, c) {
            return true;
        }
    }
    !rebuildable(s, g, 0, fills)
}

// Whether a group is beyond recovery.
pub fn lost(s: &[u8], outs: [u8; 4], fills: [u8; 16], first_checks: [u8; 4]) -> bool
    requires { Sized s.now × ((g : ℕ) → g < 4 → (get_or outs g 0 ≡ outs_in (view s.now) g) × CountsKnown s.now g fills
        × (get_or first_checks g 0 ≡ first_check (view s.now) g)) }
    ensures { result ≡ lost_in (view s.now) }
{
    for g in 0u8..4 {
        let i = usize::from(g);
        if beyond(s, g, outs[i], fills, first_checks[i]) {
            return true;
        }
    }
    false
}

// The units of a store that are not in place.
ghost use Rattle.std.specs.Prelude.{◌≡◌, ◌≤◌, length};
ghost use Rattle.soundness.specs.Pieces.{zero_between, columns_empty, behind_zero};

use crate::header::Header;

// Whether no keys are listed for the data units of the last group in place that are not.
pub fn columns_empty(header: Header<'_>) -> bool
    ensures { result ≡ columns_empty header.entry.store.now }
{
    let m = header.units();
    let end = (m + 3) / 4 * 4;
    for u in m..end {
        if !header.unit(u).none_behind(0) {
            return false;
        }
    }
    true
}

// As `places::zero_between`, for a long stretch: two halves at once, which costs more than it saves where there are few bytes.
fn zero_stretch(s: &[u8], at: usize, end: usize) -> bool
    requires { (at ≤ end) × (end ≤ length s.now) }
    ensures { result ≡ zero_between s.now at end }
{
    buffer::is_zero_long(&s[at..end])
}

// Whether the data units behind the last in place, and the check units behind the last group in place, are zero: each in one stretch.
pub fn behind_zero(header: Header<'_>) -> bool
    ensures { result ≡ behind_zero header.entry.store.now }
{
    let s = header.store;
    let b = header.size();
    let m = header.units();
    let groups = (m + 3) / 4;
    if !zero_stretch(s, lookup::slot_at(b, m, 0), lookup::slot_at(b, 16, 0)) {
        return false;
    }
    zero_stretch(
        s,
        lookup::check_at(b, 3 * groups, 0),
        lookup::check_at(b, 12, 0),
    )
}

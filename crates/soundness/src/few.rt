// The data units in place of a store with few slots: without a table of marks, and the keys of a unit tested in one loop.
ghost use Rattle.std.specs.Prelude.{◌≡◌};
ghost use Rattle.soundness.specs.Survey.{counted_fills};

use crate::header::Header;
use crate::{keys, units};

// The keys of every data unit in place, counted where all of these are good.
pub fn count_units(header: Header<'_>) -> Option<[u8; 16]>
    ensures { result ≡ counted_fills header.entry.store.now }
{
    let mut fills = [0u8; 16];
    for u in 0..header.units() {
        let unit = header.unit(u);
        let n = units::unit_count(&mut keys::Few, unit)?;
        if !unit.none_behind(n) {
            return None;
        }
        fills[usize::from(u)] = n;
    }
    Some(fills)
}

// The records of a list, a line each. A list goes by unit and then rank: unit and rank of a record are those that its key and the records before it
// give.
ghost use Rattle.std.specs.Prelude.{◌≡◌, ◌*◌, ◌≤◌, ◌<◌, length};
ghost use Rattle.buffer.specs.Table.{tab};
ghost use Rattle.lines.specs.Put.{record_line_bytes, Put};
ghost use Rattle.model.specs.Units.{unit_of};
ghost use Rattle.answering.specs.Places.{unit_in, rank_in, rank_behind, listed_line, Records};

use lines::output::{RECORD_LINE, record_line};

// A record's unit, and its rank there.
#[derive(Clone, Copy)]
struct Place {
    unit: u8,
    rank: u8,
}

// The place of the record with a given key, behind the record before it; m is the number of data units.
fn next(before: Option<Place>, m: u8, key: u32) -> Place
    requires { (1 ≤ m) × (rank_in before < 255) }
    ensures { (result.unit ≡ unit_of m key) × (result.rank ≡ rank_behind (unit_in before) (rank_in before) (unit_of m key)) }
{
    let unit = lookup::unit_of(m, key);
    match before {
        Some(place) if place.unit == unit => Place {
            unit,
            rank: place.rank + 1,
        },
        _ => Place { unit, rank: 1 },
    }
}

// The lines of the first count records of a list, from the front of a buffer on; how many bytes they are.
pub fn put_records(out: &mut [u8], m: u8, list: &[u8], count: usize) -> usize
    requires { Records m list.now count × (record_line_bytes * count ≤ length out.old) }
    ensures { Put (tab count (listed_line m list.now)) out.old out.new result }
{
    let mut before = None;
    for i in 0..count {
        let slot = &list[i * group::SLOT..i * group::SLOT + group::SLOT];
        let place = next(before, m, buffer::load32(slot, 0));
        let line = record_line(place.unit, place.rank, slot);
        out[i * RECORD_LINE..i * RECORD_LINE + RECORD_LINE].copy_from_slice(&line);
        before = Some(place);
    }
    count * RECORD_LINE
}

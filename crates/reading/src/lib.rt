// Reading a store of any bytes: read, read in place, and list. None of them changes the store.
#![tactic(auto)]

mod place;
mod records;

ghost use Rattle.std.specs.Prelude.{◌≡◌, ◌+◌, ◌≤◌, sum};
ghost use Rattle.buffer.specs.Bytes.{part};
ghost use Rattle.group.specs.Widths.{field_bytes};
ghost use Rattle.model.specs.Numbers.{Call};
ghost use Rattle.model.specs.Perform.{copied, lent, listed, outcome, perform, place_in};
ghost use Rattle.refusal.specs.Number.{number, count};
ghost use Rattle.reading.specs.Found.{Verdict};
ghost use Rattle.reading.specs.Listing.{Counted};

use place::Place;
use records::Records;
use refusal::Refusal;

// Looks a key up for a read into len bytes.
fn look_up(s: &[u8], key: u32, len: usize) -> Result<Place<'_>, Refusal>
    ensures { Verdict s.now key len result }
{
    if key == 0 {
        return Err(Refusal::BadArgument);
    }
    if len != group::FIELD {
        return Err(Refusal::BadArgument);
    }
    let survey = soundness::survey_of(s).ok_or(Refusal::NotSound)?;
    let unit = lookup::unit_of(s[lookup::UNITS_AT], key);
    let first_check = survey.first_checks[usize::from(unit / 4)];
    if lookup::losses::keys_lost(s, unit, first_check) {
        return Err(Refusal::BeyondRecovery);
    }
    let n = survey.fills[usize::from(unit)];
    let rank = lookup::listed_rank(s, unit, first_check, n, key);
    if n <= rank {
        return Err(Refusal::KeyNotTaught);
    }
    if lookup::losses::gone(s, unit, rank, survey.fills) {
        return Err(Refusal::BeyondRecovery);
    }
    Ok(Place { survey, unit, rank })
}

// Reads the field of a key, body and stamp, into a buffer of its width.
pub fn read(s: &[u8], key: u32, out: &mut [u8]) -> Result<(), Refusal>
    ensures { outcome (copied (number result) out.new) s.now ≡ perform s.now (Call.read key out.old) }
{
    let place = look_up(s, key, out.len())?;
    place.copy_field(out);
    Ok(())
}

// The field of a key as the part of the store that holds it; empty where a read is refused or the key's unit is out.
// A pointer is a block and a place in it: `start` says that a field is handed back where it stands in the store, not another stretch of equal bytes.
pub fn read_in_place(s: &[u8], key: u32) -> &[u8]
    ensures answer { outcome (lent result.now) s.now ≡ perform s.now (Call.read_in_place key) }
    ensures place { result.now ≡ part (place_in s.now key).at (place_in s.now key).size s.now }
    ensures start { (place_in s.now key).size ≡ field_bytes
        → result.ref_ptr ≡ (s.entry.ref_ptr.0, s.entry.ref_ptr.1 + (place_in s.now key).at) }
{
    let Ok(place) = look_up(s, key, group::FIELD) else {
        return &s[0..0];
    };
    if lookup::state(s, place.unit) == lookup::OUT {
        return &s[0..0];
    }
    let at = lookup::slot_at(s[lookup::SIZE_AT], place.unit, place.rank);
    &s[at + group::KEY..at + group::SLOT]
}

// The sum of the counts of the units.
fn total(fills: [u8; 16]) -> usize
    requires { sum fills ≤ 1024 }
    ensures { result ≡ sum fills }
{
    fills.iter().map(|n| usize::from(*n)).sum()
}

// Counts the records of a store for a list into len bytes.
fn count_records(s: &[u8], len: usize) -> Result<Records<'_>, Refusal>
    ensures { Counted s.now len result }
{
    let survey = soundness::survey_of(s).ok_or(Refusal::NotSound)?;
    if lookup::losses::lost(s, survey.outs, survey.fills, survey.first_checks) {
        return Err(Refusal::BeyondRecovery);
    }
    let count = total(survey.fills);
    if len < group::SLOT * count {
        return Err(Refusal::NoRoom);
    }
    Ok(Records { survey, count })
}

// Writes key and field of every record, one slot each, by unit and then rank; bytes behind are not written. How many there are.
pub fn list(s: &[u8], out: &mut [u8]) -> Result<usize, Refusal>
    ensures { outcome (listed (number result) (count result) out.new) s.now ≡ perform s.now (Call.list out.old) }
{
    let records = count_records(s, out.len())?;
    records.write(out);
    Ok(records.count)
}

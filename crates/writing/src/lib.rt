// Teach, correct, erase and unit out: a slot is written and its group's check units follow; a unit's bytes are cleared.
#![tactic(auto)]

ghost use Rattle.std.specs.Prelude.{◌≡◌, ◌+◌, ◌*◌, ◌-◌, ◌<◌, length, take, IfOk};
ghost use Rattle.group.specs.Widths.{key_bytes, field_bytes, slot_bytes};
ghost use Rattle.group.specs.Body.{add_body};
ghost use Rattle.model.specs.Layout.{bytes, view, slot_of};
ghost use Rattle.model.specs.Places.{SlotIn, Long};
ghost use Rattle.model.specs.Parts.{with_checks};
ghost use Rattle.model.specs.Numbers.{Call, teach, correct, erase, unit_out, first_of, refusals_in};
ghost use Rattle.model.specs.Sound.{sound};
ghost use Rattle.model.specs.Perform.{plain, outcome, perform};
ghost use Rattle.model.specs.Changes.{written, erased, unit_lost};
ghost use Rattle.writing.specs.Following.{followed};
ghost use Rattle.refusal.specs.Number.{number};
ghost use Rattle.writing.specs.Homes.{opening_rows, taught_rows, Located};
ghost use Rattle.writing.specs.Places.{unit_at};

use refusal::Refusal;

// Each check unit in service of u's group follows, at rank r, the new key and the change of field of the record there.
fn follow_checks(
    s: &mut [u8],
    u: u8,
    r: u8,
    key: [u8; group::KEY],
    change: [u8; group::FIELD],
    products: &group::Products,
)
    requires { SlotIn s.old u r }
    ensures { s.new ≡ bytes (with_checks (view s.old) (followed 3 (view s.old) u r key change)) }
{
    let b = s[lookup::SIZE_AT];
    let place = u % 4;
    let first = 3 * (u / 4);
    for j in 0u8..3 {
        let c = first + j;
        if s[lookup::CHECK_STATES + usize::from(c)] == lookup::IN_SERVICE {
            let at = lookup::check_at(b, c, r);
            group::follow(
                &mut s[at..at + group::CHECK],
                j,
                place,
                key,
                change,
                products,
            );
        }
    }
}

// The sum of two fields, which is the change from one to the other.
fn change_of(old: &[u8], new: &[u8]) -> [u8; group::FIELD]
    requires { (length old.now ≡ field_bytes) × (length new.now ≡ field_bytes) }
    ensures { result ≡ add_body old.now new.now }
{
    let mut change = [0u8; group::FIELD];
    change.copy_from_slice(old);
    group::add(&mut change, new);
    change
}

// The key of a slot.
fn key_of(slot: &[u8]) -> [u8; group::KEY]
    requires { length slot.now ≡ slot_bytes }
    ensures { result ≡ take key_bytes slot.now }
{
    let mut key = [0u8; group::KEY];
    key.copy_from_slice(&slot[0..group::KEY]);
    key
}

// Slot r of unit u becomes these bytes, and each check unit in service of its group follows. They come by value: the compiler knows that they stand
// apart from the store.
fn write_slot(s: &mut [u8], u: u8, r: u8, slot: [u8; group::SLOT], products: &group::Products)
    requires { SlotIn s.old u r }
    ensures { s.new ≡ bytes (written (view s.old) u r slot) }
{
    let at = lookup::slot_at(s[lookup::SIZE_AT], u, r);
    let change = change_of(
        &s[at + group::KEY..at + group::SLOT],
        &slot[group::KEY..group::SLOT],
    );
    follow_checks(s, u, r, key_of(&slot), change, products);
    s[at..at + group::SLOT].copy_from_slice(&slot);
}

// The record of rank last moves into rank r of unit u, and its own slot becomes empty.
fn erase_at(s: &mut [u8], u: u8, r: u8, last: u8, products: &group::Products)
    requires { SlotIn s.old u r × SlotIn s.old u last }
    ensures { s.new ≡ bytes (erased (view s.old) u r last) }
{
    let from = lookup::slot_at(s[lookup::SIZE_AT], u, last);
    let mut held = [0u8; group::SLOT];
    held.copy_from_slice(&s[from..from + group::SLOT]);
    write_slot(s, u, r, held, products);
    let empty = [0u8; group::SLOT];
    write_slot(s, u, last, empty, products);
}

// The bytes of a slot with a key and a field.
fn slot_of(key: u32, field: &[u8]) -> [u8; group::SLOT]
    requires { length field.now ≡ field_bytes }
    ensures { result ≡ slot_of key field.now }
{
    let mut slot = [0u8; group::SLOT];
    buffer::put32(&mut slot[0..group::KEY], key);
    slot[group::KEY..group::SLOT].copy_from_slice(field);
    slot
}

// Slot r of unit u becomes a key and a field, and each check unit in service of its group follows.
fn write_record(s: &mut [u8], u: u8, r: u8, key: u32, field: &[u8])
    requires { SlotIn s.old u r × (length field.now ≡ field_bytes) }
    ensures { s.new ≡ bytes (written (view s.old) u r (slot_of key field.now)) }
{
    let products = group::Products::new();
    write_slot(s, u, r, slot_of(key, field), &products);
}

// Where the bytes of unit w start: 0 to 15 data, 16 + 3g + j check. They end where those of the next one start.
fn unit_at(b: u8, w: u8) -> usize
    ensures { result ≡ unit_at b w }
{
    if w < 16 {
        return lookup::slot_at(b, w, 0);
    }
    lookup::check_at(b, w - 16, 0)
}

// The bytes of unit w become zero, and its state 2.
fn clear_unit(s: &mut [u8], w: u8)
    requires { Long s.old × (w < 28) }
    ensures { s.new ≡ bytes (unit_lost (view s.old) w) }
{
    let b = s[lookup::SIZE_AT];
    let from = unit_at(b, w);
    let to = unit_at(b, w + 1);
    buffer::clear(&mut s[from..to]);
    s[lookup::DATA_STATES + usize::from(w)] = lookup::OUT;
}

// Where a key belongs: its unit, how many records the unit has, and the key's rank among them.
#[derive(Clone, Copy)]
struct Home {
    unit: u8,
    fill: u8,
    rank: u8,
}

// The home of a key, for a call with a field that fits or not.
fn home_of(s: &[u8], key: u32, fits: bool) -> Result<Home, Refusal>
    ensures number { number result ≡ first_of (opening_rows s.now key fits) }
    ensures place { IfOk result (Located s.now key) }
{
    if key == 0 || !fits {
        return Err(Refusal::BadArgument);
    }
    let survey = soundness::survey_of(s).ok_or(Refusal::NotSound)?;
    let unit = lookup::unit_of(s[lookup::UNITS_AT], key);
    let outs = survey.outs;
    if 0 < outs[usize::from(unit / 4)] {
        return Err(Refusal::UnitOut);
    }
    let fills = survey.fills;
    let fill = fills[usize::from(unit)];
    let rank = lookup::rank(s, unit, fill, key);
    Ok(Home { unit, fill, rank })
}

// The home of a key that is taught.
fn taught_home(s: &[u8], key: u32, fits: bool) -> Result<Home, Refusal>
    ensures number { number result ≡ first_of (taught_rows s.now key fits) }
    ensures place { IfOk result (Located s.now key) }
{
    let home = home_of(s, key, fits)?;
    if home.fill <= home.rank {
        return Err(Refusal::KeyNotTaught);
    }
    Ok(home)
}

// The unit that a call marks as lost: in place, and not out.
fn unit_to_lose(s: &[u8], unit: u32) -> Result<u8, Refusal>
    ensures number { number result ≡ first_of (refusals_in (sound s.now) (view s.now) (Call.unit_out unit)) }
    ensures same { IfOk result (λ w. w ≡ unit) }
{
    if 27 < unit {
        return Err(Refusal::BadArgument);
    }
    if !soundness::is_sound(s) {
        return Err(Refusal::NotSound);
    }
    match lookup::state(s, unit as u8) {
        0 => Err(Refusal::NotInPlace),
        2 => Err(Refusal::UnitOut),
        _ => Ok(unit as u8),
    }
}

// Teaches a new key.
pub fn teach(s: &mut [u8], key: u32, field: &[u8]) -> Result<(), Refusal>
    ensures { outcome (plain (number result)) s.new ≡ perform s.old (Call.teach key field.now) }
{
    let home = home_of(s, key, field.len() == group::FIELD)?;
    if home.rank < home.fill {
        return Err(Refusal::KeyTaught);
    }
    if s[lookup::SIZE_AT] <= home.fill {
        return Err(Refusal::NoRoom);
    }
    write_record(s, home.unit, home.fill, key, field);
    Ok(())
}

// Gives a key a new field.
pub fn correct(s: &mut [u8], key: u32, field: &[u8]) -> Result<(), Refusal>
    ensures { outcome (plain (number result)) s.new ≡ perform s.old (Call.correct key field.now) }
{
    let home = taught_home(s, key, field.len() == group::FIELD)?;
    write_record(s, home.unit, home.rank, key, field);
    Ok(())
}

// Erases a key: the last record of its unit takes the freed rank.
pub fn erase(s: &mut [u8], key: u32) -> Result<(), Refusal>
    ensures { outcome (plain (number result)) s.new ≡ perform s.old (Call.erase key) }
{
    let home = taught_home(s, key, true)?;
    let products = group::Products::new();
    erase_at(s, home.unit, home.rank, home.fill - 1, &products);
    Ok(())
}

// A unit is lost: its bytes become zero, and it is out.
pub fn unit_out(s: &mut [u8], unit: u32) -> Result<(), Refusal>
    ensures { outcome (plain (number result)) s.new ≡ perform s.old (Call.unit_out unit) }
{
    clear_unit(s, unit_to_lose(s, unit)?);
    Ok(())
}

// Repair of a group: its lost data units are rebuilt, its lost check units are made from the data, and all of them are put in service.
#![tactic(auto)]

ghost use Rattle.std.specs.Prelude.{◌≡◌, map, ◌+◌, ◌/◌};
ghost use Rattle.model.specs.Layout.{bytes, view};
ghost use Rattle.model.specs.Reads.{first_check};
ghost use Rattle.model.specs.Changes.{repaired};
ghost use Rattle.model.specs.Numbers.{Call};
ghost use Rattle.model.specs.Perform.{outcome, plain, perform};
ghost use Rattle.refusal.specs.Number.{number};
ghost use Rattle.encoding.specs.Made.{made_in, in_group};
ghost use Rattle.repairing.specs.Groups.{Group, OutUnit};
ghost use Rattle.repairing.specs.Found.{Known, Verdict};
ghost use Rattle.repairing.specs.Steps.{unit_rebuilt, units_rebuilt, in_service, units_serving};

use refusal::Refusal;

// A group that is to be repaired and is not beyond recovery: its first check unit in service, if there is one, which lists the keys of its data units, and
// how many are listed for each data unit of the store.
#[derive(Clone, Copy)]
struct Degraded {
    group: u8,
    check: u8,
    fills: [u8; 16],
}

// Rebuilds the slots of data unit u, which is out, at the ranks for which a key is listed.
fn rebuild_unit(s: &mut [u8], u: u8, degraded: Degraded, products: &group::Products)
    requires { OutUnit s.old u degraded.fills × (degraded.check ≡ first_check (view s.old) (u / 4)) }
    ensures { s.new ≡ bytes (unit_rebuilt (view s.old) u) }
{
    let b = s[lookup::SIZE_AT];
    let keys = lookup::keys_at(s, u, degraded.check);
    let mut last = None;
    for r in 0..degraded.fills[usize::from(u)] {
        let decoder = lookup::decoders::next_decoder(last, s, u, r, degraded.fills, products);
        last = Some(decoder);
        let mut slot = [0u8; group::SLOT];
        lookup::rebuild_slot(&mut slot, s, u, r, keys, decoder, products);
        let at = lookup::slot_at(b, u, r);
        s[at..at + group::SLOT].copy_from_slice(&slot);
    }
}

// Rebuilds the data units of a group that are out, each record from the first four members in service at its rank.
fn rebuild_units(s: &mut [u8], degraded: Degraded, products: &group::Products)
    requires { Known s.old degraded }
    ensures { s.new ≡ bytes (units_rebuilt (view s.old) degraded.group) }
{
    for p in 0u8..4 {
        let u = 4 * degraded.group + p;
        if lookup::state(s, u) == lookup::OUT {
            rebuild_unit(s, u, degraded, products);
        }
    }
}

// Makes the check units of group g that are out from the data. Most repairs miss at most one, so the rows are taken for each.
fn make_units(s: &mut [u8], g: u8)
    requires { Group s.old g }
    ensures { s.new ≡ bytes (made_in 2 (in_group g) (view s.old)) }
{
    for j in 0u8..3 {
        let c = 3 * g + j;
        if s[lookup::CHECK_STATES + usize::from(c)] == lookup::OUT {
            let rows = group::parities::Rows::new();
            encoding::make_unit(s, c, &rows);
        }
    }
}

// Puts the units that are out in service, of these states.
fn put_in_service(states: &mut [u8])
    ensures { states.new ≡ map in_service states.old }
{
    for state in states.iter_mut() {
        if *state == lookup::OUT {
            *state = lookup::IN_SERVICE;
        }
    }
}

// Puts the units of group g that are out in service.
fn serve_units(s: &mut [u8], g: u8)
    requires { Group s.old g }
    ensures { s.new ≡ bytes (units_serving (view s.old) g) }
{
    let group = usize::from(g);
    let data_at = lookup::DATA_STATES + 4 * group;
    put_in_service(&mut s[data_at..data_at + 4]);
    let checks_at = lookup::CHECK_STATES + 3 * group;
    put_in_service(&mut s[checks_at..checks_at + 3]);
}

// Repairs a group that is not beyond recovery.
fn repair_group(s: &mut [u8], degraded: Degraded)
    requires { Known s.old degraded }
    ensures { s.new ≡ bytes (repaired (view s.old) degraded.group) }
{
    let products = group::Products::new();
    rebuild_units(s, degraded, &products);
    make_units(s, degraded.group);
    serve_units(s, degraded.group);
}

// Looks at a group for its repair.
fn look_at(s: &[u8], group: u32) -> Result<Degraded, Refusal>
    ensures { Verdict s.now group result }
{
    if 3 < group {
        return Err(Refusal::BadArgument);
    }
    let survey = soundness::survey_of(s).ok_or(Refusal::NotSound)?;
    let g = group as u8;
    if s[lookup::UNITS_AT] <= 4 * g {
        return Err(Refusal::NotInPlace);
    }
    let i = usize::from(g);
    let check = survey.first_checks[i];
    let fills = survey.fills;
    if lookup::losses::beyond(s, g, survey.outs[i], fills, check) {
        return Err(Refusal::BeyondRecovery);
    }
    Ok(Degraded {
        group: g,
        check,
        fills,
    })
}

// Repairs a group: its units that are out are rebuilt and put in service.
pub fn repair(s: &mut [u8], group: u32) -> Result<(), Refusal>
    ensures { outcome (plain (number result)) s.new ≡ perform s.old (Call.repair group) }
{
    let degraded = look_at(s, group)?;
    repair_group(s, degraded);
    Ok(())
}

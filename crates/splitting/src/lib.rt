// Growing and shrinking a store by a unit, and raising its level.
#![tactic(auto)]

pub mod dealing;
pub mod making;
pub mod raising;
pub mod states;

ghost use Rattle.std.specs.Prelude.{◌≡◌, ◌+◌, ◌≤◌, ◌<◌, ltb, get_or, IfOk};
ghost use Rattle.buffer.specs.Range.{sum};
ghost use Rattle.buffer.specs.Bytes.{byte};
ghost use Rattle.refusal.specs.Number.{number};
ghost use Rattle.model.specs.Units.{split_pointer};
ghost use Rattle.model.specs.Layout.{bytes, view};
ghost use Rattle.model.specs.Reads.{fill_in};
ghost use Rattle.model.specs.Numbers.{Call, grow, shrink, raise, first_of, refusals_in, number_in};
ghost use Rattle.model.specs.Sound.{sound};
ghost use Rattle.model.specs.Changes.{grown, shrunk};
ghost use Rattle.model.specs.Perform.{outcome, plain, granted_in, perform};
ghost use Rattle.splitting.specs.Steps.{Split, Merges, Blank, pair_out};

use dealing::Merge;
use refusal::Refusal;

// Adds unit m: the records of unit n, which is split and has count of them, are dealt out, and the check units of both groups are made anew.
fn add_unit(s: &mut [u8], n: u8, m: u8, count: u8)
    requires { Split s.old n m × (count ≡ fill_in (view s.old) n) }
    ensures { s.new ≡ bytes (grown (view s.old) m) }
{
    let level = s[lookup::LEVEL_AT];
    dealing::deal_out(s, n, m, count);
    states::mark(s, m + 1, m, lookup::IN_SERVICE);
    states::set_first(s, m, level);
    making::make_groups(s, n, m);
}

// Removes the last unit: its records go behind those of the unit that it was split from.
fn remove_unit(s: &mut [u8], merge: Merge)
    requires { Merges s.old merge × Blank s.old }
    ensures { s.new ≡ bytes (shrunk (view s.old) merge.last) }
{
    let m = merge.last;
    dealing::merge_into(s, merge);
    states::mark(s, m, m, 0);
    states::set_first(s, m, 0);
    making::clear_first(s, m);
    making::make_groups(s, merge.into, m);
}

// Whether a unit is out in the group of unit m or in the group of the unit that m is split from, by the units out of each group.
fn pair_out(outs: [u8; 4], m: u8) -> bool
    requires { (1 ≤ m) × (m < 16) }
    ensures { result ≡ pair_out (λ g. get_or outs g 0) m }
{
    0 < outs[usize::from(m / 4)] || 0 < outs[usize::from(lookup::split_pointer(m) / 4)]
}

// Whether a unit of the store is out, by the units out of each group.
fn any_out(outs: [u8; 4]) -> bool
    ensures { result ≡ ltb 0 (sum 4 (λ g. get_or outs g 0)) }
{
    outs != [0; 4]
}

// Before a grow is made: how many records the unit that is split has.
pub fn growth_of(s: &[u8]) -> Result<u8, Refusal>
    ensures number { number result ≡ number_in s.now Call.grow }
    ensures records { IfOk result (λ count. count ≡ fill_in (view s.now) (split_pointer (byte s.now 6))) }
{
    let survey = soundness::survey_of(s).ok_or(Refusal::NotSound)?;
    let m = s[lookup::UNITS_AT];
    if 16 <= m {
        return Err(Refusal::AtTheLimit);
    }
    let outs = survey.outs;
    if pair_out(outs, m) {
        return Err(Refusal::UnitOut);
    }
    let fills = survey.fills;
    Ok(fills[usize::from(lookup::split_pointer(m))])
}

// Grows the store where that is granted, by a unit split from one with count records.
pub fn add_next(s: &mut [u8], count: u8)
    requires { (number_in s.old Call.grow ≡ 0) × (count ≡ fill_in (view s.old) (split_pointer (byte s.old 6))) }
    ensures { s.new ≡ granted_in s.old Call.grow }
{
    let m = s[lookup::UNITS_AT];
    add_unit(s, lookup::split_pointer(m), m, count);
}

// Before a shrink is made: the units that it puts together.
fn merge_of(s: &[u8]) -> Result<Merge, Refusal>
    ensures number { number result ≡ first_of (refusals_in (sound s.now) (view s.now) Call.shrink) }
    ensures units { IfOk result (λ merge. Merges s.now merge × Blank s.now × (merge.last + 1 ≡ byte s.now 6)) }
{
    let survey = soundness::survey_of(s).ok_or(Refusal::NotSound)?;
    let units = s[lookup::UNITS_AT];
    if units <= 1 {
        return Err(Refusal::AtTheLimit);
    }
    let last = units - 1;
    let outs = survey.outs;
    if pair_out(outs, last) {
        return Err(Refusal::UnitOut);
    }
    let into = lookup::split_pointer(last);
    let fills = survey.fills;
    let count = fills[usize::from(into)];
    let more = fills[usize::from(last)];
    if usize::from(s[lookup::SIZE_AT]) < usize::from(count) + usize::from(more) {
        return Err(Refusal::NoRoom);
    }
    Ok(Merge {
        into,
        last,
        count,
        more,
    })
}

// Whether a raise may be made.
fn may_raise(s: &[u8]) -> Result<(), Refusal>
    ensures { number result ≡ first_of (refusals_in (sound s.now) (view s.now) Call.raise) }
{
    let survey = soundness::survey_of(s).ok_or(Refusal::NotSound)?;
    if 3 <= s[lookup::LEVEL_AT] {
        return Err(Refusal::AtTheLimit);
    }
    let outs = survey.outs;
    if any_out(outs) {
        return Err(Refusal::UnitOut);
    }
    Ok(())
}

// Grows the store by a unit.
pub fn grow(s: &mut [u8]) -> Result<(), Refusal>
    ensures { outcome (plain (number result)) s.new ≡ perform s.old Call.grow }
{
    let count = growth_of(s)?;
    add_next(s, count);
    Ok(())
}

// Shrinks the store by its last unit.
pub fn shrink(s: &mut [u8]) -> Result<(), Refusal>
    ensures { outcome (plain (number result)) s.new ≡ perform s.old Call.shrink }
{
    let merge = merge_of(s)?;
    remove_unit(s, merge);
    Ok(())
}

// Raises the store's level by one: each group in place gets a check unit.
pub fn raise(s: &mut [u8]) -> Result<(), Refusal>
    ensures { outcome (plain (number result)) s.new ≡ perform s.old Call.raise }
{
    may_raise(s)?;
    raising::raise_level(s);
    Ok(())
}

// The record store and the byte coder on numbers and lent bytes: each call, and its number. Crate store_c gives them to C.
#![tactic(auto)]

pub mod lay_out;

ghost use Rattle.std.specs.Prelude.{◌≡◌};
ghost use Rattle.model.specs.Numbers.{Call};
ghost use Rattle.model.specs.Perform.{outcome, plain, copied, listed, planned, perform, lay_out};
ghost use Rattle.model.specs.history.Further.{Further, plan, commit};
ghost use Rattle.model.specs.history.Steps.{Step, further, perform_step};
ghost use Rattle.coder.specs.Segment.{ending, rebuild_segment};

use refusal::number;

pub fn lhrs_lay_out(store: &mut [u8], b: u32) -> u8
    ensures { outcome (plain result) store.new ≡ lay_out store.old b }
{
    number(lay_out::lay_out(store, b))
}

pub fn lhrs_teach(store: &mut [u8], key: u32, field: &[u8]) -> u8
    ensures { outcome (plain result) store.new ≡ perform store.old (Call.teach key field.now) }
{
    number(writing::teach(store, key, field))
}

pub fn lhrs_correct(store: &mut [u8], key: u32, field: &[u8]) -> u8
    ensures { outcome (plain result) store.new ≡ perform store.old (Call.correct key field.now) }
{
    number(writing::correct(store, key, field))
}

pub fn lhrs_erase(store: &mut [u8], key: u32) -> u8
    ensures { outcome (plain result) store.new ≡ perform store.old (Call.erase key) }
{
    number(writing::erase(store, key))
}

pub fn lhrs_out(store: &mut [u8], unit: u32) -> u8
    ensures { outcome (plain result) store.new ≡ perform store.old (Call.unit_out unit) }
{
    number(writing::unit_out(store, unit))
}

pub fn lhrs_repair(store: &mut [u8], group: u32) -> u8
    ensures { outcome (plain result) store.new ≡ perform store.old (Call.repair group) }
{
    number(repairing::repair(store, group))
}

pub fn lhrs_read(store: &[u8], key: u32, out: &mut [u8]) -> u8
    ensures { outcome (copied result out.new) store.now ≡ perform store.now (Call.read key out.old) }
{
    number(reading::read(store, key, out))
}

// The count goes into the number that the caller lends; 0 when refused.
pub fn lhrs_list(store: &[u8], out: &mut [u8], count: &mut usize) -> u8
    ensures { outcome (listed result count.new out.new) store.now
        ≡ perform store.now (Call.list out.old) }
{
    let listed = reading::list(store, out);
    *count = listed.unwrap_or(0);
    number(listed)
}

pub fn lhrs_grow(store: &mut [u8]) -> u8
    ensures { outcome (plain result) store.new ≡ perform store.old Call.grow }
{
    number(splitting::grow(store))
}

// The count goes into the number that the caller lends; 0 when refused.
pub fn lhrs_plan(store: &[u8], list: &mut [moves::Move], count: &mut usize) -> u8
    ensures { outcome (planned result count.new list.new) store.now
        ≡ perform_step store.now (further (Further.plan list.old)) }
{
    let planned = planning::plan(store, list);
    *count = planned.unwrap_or(0);
    number(planned)
}

pub fn lhrs_commit(store: &mut [u8], list: &[moves::Move], count: usize) -> u8
    ensures { outcome (plain result) store.new ≡ perform_step store.old (further (Further.commit list.now count)) }
{
    number(planning::commit(store, list, count))
}

pub fn lhrs_shrink(store: &mut [u8]) -> u8
    ensures { outcome (plain result) store.new ≡ perform store.old Call.shrink }
{
    number(splitting::shrink(store))
}

pub fn lhrs_raise(store: &mut [u8]) -> u8
    ensures { outcome (plain result) store.new ≡ perform store.old Call.raise }
{
    number(splitting::raise(store))
}

// The byte coder, which takes no store.
pub fn lhrs_rebuild_segment(members: &mut [u8], marks: &mut [u8], m: u32) -> u8
    ensures { ending result members.new marks.new ≡ rebuild_segment m members.old marks.old }
{
    number(coder::rebuild(members, marks, m))
}

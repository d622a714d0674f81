// The record store and the byte coder for C: each export makes the call of crate store, whose clauses it states again. include/lhrs.h declares them.
#![tactic(auto)]

ghost use Rattle.std.specs.Prelude.{◌≡◌};
ghost use Rattle.model.specs.Numbers.{Call};
ghost use Rattle.model.specs.Perform.{outcome, plain, copied, listed, planned, perform, lay_out};
ghost use Rattle.model.specs.history.Further.{Further, plan, commit};
ghost use Rattle.model.specs.history.Steps.{Step, further, perform_step};
ghost use Rattle.coder.specs.Segment.{ending, rebuild_segment};

#[unsafe(no_mangle)]
pub extern "C" fn lhrs_lay_out(store: &mut [u8], b: u32) -> u8
    ensures { outcome (plain result) store.new ≡ lay_out store.old b }
{
    store::lhrs_lay_out(store, b)
}

#[unsafe(no_mangle)]
pub extern "C" fn lhrs_teach(store: &mut [u8], key: u32, field: &[u8]) -> u8
    ensures { outcome (plain result) store.new ≡ perform store.old (Call.teach key field.now) }
{
    store::lhrs_teach(store, key, field)
}

#[unsafe(no_mangle)]
pub extern "C" fn lhrs_correct(store: &mut [u8], key: u32, field: &[u8]) -> u8
    ensures { outcome (plain result) store.new ≡ perform store.old (Call.correct key field.now) }
{
    store::lhrs_correct(store, key, field)
}

#[unsafe(no_mangle)]
pub extern "C" fn lhrs_erase(store: &mut [u8], key: u32) -> u8
    ensures { outcome (plain result) store.new ≡ perform store.old (Call.erase key) }
{
    store::lhrs_erase(store, key)
}

#[unsafe(no_mangle)]
pub extern "C" fn lhrs_out(store: &mut [u8], unit: u32) -> u8
    ensures { outcome (plain result) store.new ≡ perform store.old (Call.unit_out unit) }
{
    store::lhrs_out(store, unit)
}

#[unsafe(no_mangle)]
pub extern "C" fn lhrs_repair(store: &mut [u8], group: u32) -> u8
    ensures { outcome (plain result) store.new ≡ perform store.old (Call.repair group) }
{
    store::lhrs_repair(store, group)
}

#[unsafe(no_mangle)]
pub extern "C" fn lhrs_read(store: &[u8], key: u32, out: &mut [u8]) -> u8
    ensures { outcome (copied result out.new) store.now ≡ perform store.now (Call.read key out.old) }
{
    store::lhrs_read(store, key, out)
}

// The count goes into the number that the caller lends; 0 when refused.
#[unsafe(no_mangle)]
pub extern "C" fn lhrs_list(store: &[u8], out: &mut [u8], count: &mut usize) -> u8
    ensures { outcome (listed result count.new out.new) store.now
        ≡ perform store.now (Call.list out.old) }
{
    store::lhrs_list(store, out, count)
}

#[unsafe(no_mangle)]
pub extern "C" fn lhrs_grow(store: &mut [u8]) -> u8
    ensures { outcome (plain result) store.new ≡ perform store.old Call.grow }
{
    store::lhrs_grow(store)
}

// The count goes into the number that the caller lends; 0 when refused.
#[unsafe(no_mangle)]
pub extern "C" fn lhrs_plan(store: &[u8], list: &mut [moves::Move], count: &mut usize) -> u8
    ensures { outcome (planned result count.new list.new) store.now
        ≡ perform_step store.now (further (Further.plan list.old)) }
{
    store::lhrs_plan(store, list, count)
}

#[unsafe(no_mangle)]
pub extern "C" fn lhrs_commit(store: &mut [u8], list: &[moves::Move], count: usize) -> u8
    ensures { outcome (plain result) store.new ≡ perform_step store.old (further (Further.commit list.now count)) }
{
    store::lhrs_commit(store, list, count)
}

#[unsafe(no_mangle)]
pub extern "C" fn lhrs_shrink(store: &mut [u8]) -> u8
    ensures { outcome (plain result) store.new ≡ perform store.old Call.shrink }
{
    store::lhrs_shrink(store)
}

#[unsafe(no_mangle)]
pub extern "C" fn lhrs_raise(store: &mut [u8]) -> u8
    ensures { outcome (plain result) store.new ≡ perform store.old Call.raise }
{
    store::lhrs_raise(store)
}

// The byte coder, which takes no store.
#[unsafe(no_mangle)]
pub extern "C" fn lhrs_rebuild_segment(members: &mut [u8], marks: &mut [u8], m: u32) -> u8
    ensures { ending result members.new marks.new ≡ rebuild_segment m members.old marks.old }
{
    store::lhrs_rebuild_segment(members, marks, m)
}

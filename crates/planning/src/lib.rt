// Growing in two strokes: asking for the plan of a grow, and committing a plan.
// The plan is made by value, in functions that know nothing of lent lists; `plan` and `commit` lend its moves to those of `moves` that do.
#![tactic(auto)]

ghost use Rattle.std.specs.Prelude.{◌≡◌, ◌≤◌, ◌<◌, IfOk};
ghost use Rattle.buffer.specs.Bytes.{byte};
ghost use Rattle.refusal.specs.Number.{number, count};
ghost use Rattle.model.specs.Layout.{view};
ghost use Rattle.model.specs.Reads.{fill_in};
ghost use Rattle.model.specs.Numbers.{Call, number_in};
ghost use Rattle.model.specs.Perform.{outcome, plain, planned};
ghost use Rattle.moves.specs.Drafts.{moves_of};
ghost use Rattle.model.specs.history.Plan.{plan_in};
ghost use Rattle.model.specs.history.Further.{Further, plan, commit};
ghost use Rattle.model.specs.history.Steps.{Step, further, perform_step};
ghost use Rattle.splitting.specs.Steps.{Split};
ghost use Rattle.planning.specs.Drafted.{move_from};

use moves::{Move, Plan};
use refusal::Refusal;

// The move of a record from rank r of unit n, which unit m is split from, where this many records before it leave; ranks counted from 0.
#[tactic(auto, unfolding(crate::specs::Drafted::move_from, buffer::specs::Choice::pick))]
fn move_of(n: u8, m: u8, r: u8, leaves: bool, leaving: u8) -> Move
    requires { (leaving ≤ r) × (r < 255) }
    ensures { result ≡ move_from n m r leaves leaving }
{
    if leaves {
        Move {
            old_unit: n,
            old_rank: r + 1,
            new_unit: m,
            new_rank: leaving + 1,
        }
    } else {
        Move {
            old_unit: n,
            old_rank: r + 1,
            new_unit: n,
            new_rank: r - leaving + 1,
        }
    }
}

// The plan of a store: how a grow would deal out the records of unit n, which has count of them, to it and to unit m.
fn dealt(s: &[u8], n: u8, m: u8, count: u8) -> Plan
    requires { Split s.now n m × (m ≡ byte s.now 6) × (count ≡ fill_in (view s.now) n) }
    ensures { moves_of result ≡ plan_in (view s.now) }
{
    let mut plan = Plan::empty();
    let mut leaving: u8 = 0;
    for r in 0..count {
        let leaves = lookup::unit_of(m + 1, lookup::key_at(s, n, r)) == m;
        plan.push(move_of(n, m, r, leaves, leaving));
        leaving += u8::from(leaves);
    }
    plan
}

// The plan of a grow of the store, or why a grow is refused.
fn drafted(s: &[u8]) -> Result<Plan, Refusal>
    ensures number { number result ≡ number_in s.now Call.grow }
    ensures plan { IfOk result (λ p. moves_of p ≡ plan_in (view s.now)) }
{
    let count = splitting::growth_of(s)?;
    let m = buffer::byte_at(s, lookup::UNITS_AT);
    Ok(dealt(s, lookup::split_pointer(m), m, count))
}

// Asks for the plan: writes one move a record of the unit that a grow would split to the front of the list, and says how many.
pub fn plan(s: &[u8], list: &mut [Move]) -> Result<usize, Refusal>
    ensures { outcome (planned (number result) (count result) list.new) s.now
        ≡ perform_step s.now (further (Further.plan list.old)) }
{
    moves::fill(list, drafted(s)?.as_slice())
}

// Grows the store where the first `count` entries of the list are the plan.
pub fn commit(s: &mut [u8], list: &[Move], count: usize) -> Result<(), Refusal>
    ensures { outcome (plain (number result)) s.new ≡ perform_step s.old (further (Further.commit list.now count)) }
{
    let plan = drafted(s)?;
    if !moves::agree(list, count, plan.as_slice()) {
        return Err(Refusal::NotThePlan);
    }
    splitting::add_next(s, plan.count as u8);
    Ok(())
}

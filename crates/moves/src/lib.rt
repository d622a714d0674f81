// Moves of records, in lists that the caller lends: filled with a plan, and compared with one. Nothing here knows of a store.
#![tactic(auto)]

mod plan;

ghost use Rattle.std.specs.Prelude.{◌≡◌, not, ◌&&◌, ◌++◌, ltb, length, take, drop};
ghost use Rattle.moves.specs.Moves.{same_moves};
ghost use Rattle.moves.specs.Answers.{answer_of};
ghost use Rattle.refusal.specs.Number.{count};

pub use plan::Plan;
use refusal::Refusal;

// Where a record is, and where it goes. Ranks count from 1.
#[repr(C)]
#[derive(Clone, Copy, PartialEq, Eq, Default)]
pub struct Move {
    pub old_unit: u8,
    pub old_rank: u8,
    pub new_unit: u8,
    pub new_rank: u8,
}

// The most moves of a plan: a unit has up to 64 records.
pub const MOST: usize = 64;

// Writes a plan to the front of the list, and says how many moves that are. Where the list is too short, it is left as it was.
#[tactic(auto, unfolding(crate::specs::Answers::answer_of, buffer::specs::Choice::pick))]
pub fn fill(list: &mut [Move], plan: &[Move]) -> Result<usize, Refusal>
    ensures answer { result ≡ answer_of (length list.old) plan.now }
    ensures list { list.new ≡ take (count result) plan.now ++ drop (count result) list.old }
{
    let n = plan.len();
    if list.len() < n {
        return Err(Refusal::NoRoom);
    }
    list[..n].copy_from_slice(plan);
    Ok(n)
}

// Whether the first `count` entries of the list are the plan, all of it; no entry behind is read.
pub fn agree(list: &[Move], count: usize, plan: &[Move]) -> bool
    ensures { result ≡ (not (ltb (length list.now) count) && same_moves (take count list.now) plan.now) }
{
    let Some(front) = list.get(..count) else {
        return false;
    };
    front == plan
}

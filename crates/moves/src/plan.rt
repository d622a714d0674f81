// A plan by value, in fixed memory.
ghost use Rattle.std.specs.Prelude.{◌≤◌};
ghost use Rattle.moves.specs.declared.TheConstants.{MOST};

use crate::{MOST, Move};

// A plan: the first `count` of these are its moves.
#[derive(Clone, Copy)]
pub struct Plan {
    pub count: usize,
    pub moves: [Move; MOST],
    ghost within: { count ≤ MOST },
}

impl Plan {
    ghost use Rattle.std.specs.Prelude.{◌≡◌, ◌<◌, ◌+◌, [], ◌∷◌, ◌++◌};
    ghost use Rattle.moves.specs.Drafts.{most_moves, blank, moves_of};

    // The plan with no move.
    pub fn empty() -> Plan
        ensures { (result.count ≡ 0) × (result.moves ≡ blank) × (moves_of result ≡ []) }
    {
        Plan {
            count: 0,
            moves: [Move::default(); MOST],
        }
    }

    // Adds a move behind the others.
    pub fn push(&mut self, last: Move)
        requires { self.old.count < most_moves }
        ensures count { self.new.count ≡ self.old.count + 1 }
        ensures moves { moves_of self.new ≡ moves_of self.old ++ (last ∷ []) }
    {
        self.moves[self.count] = last;
        self.count += 1;
    }

    // Its moves.
    #[tactic(auto, using(crate::specs::DraftLaws::moves_take))]
    pub fn as_slice(&self) -> &[Move]
        ensures { result.now ≡ moves_of self.now }
    {
        &self.moves[..self.count]
    }
}

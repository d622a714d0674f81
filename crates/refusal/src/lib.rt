// Why a call is refused: the rows of document 01's table, each with its number, and 0 for a call that is granted.
#![tactic(auto)]

ghost use Rattle.std.specs.Prelude.{◌≡◌};
ghost use Rattle.refusal.specs.Number.{code, number};

// The rows in the order of their numbers. A line that is not readable (10) is no call.
#[derive(Clone, Copy, PartialEq, Eq)]
pub enum Refusal {
    NotSound, // 1: the bytes are not a sound store
    BadArgument, // 2: a number or a length outside its range
    NotInPlace, // 3: the store has no such unit or group
    UnitOut, // 4: a unit of the group is out, or this one is
    KeyTaught, // 5: the key is taught already
    KeyNotTaught, // 6: the key is not taught
    NoRoom, // 7: a unit is full, or what is lent is too short
    BeyondRecovery, // 8: what is asked for cannot be rebuilt
    AtTheLimit, // 9: no unit or level more, or less
    NotThePlan, // 11: the list of moves is not the plan
}

impl From<Refusal> for u8 {
    ghost from_gives = { λ refusal n. n ≡ code refusal };

    fn from(refusal: Refusal) -> u8 {
        match refusal {
            Refusal::NotSound => 1,
            Refusal::BadArgument => 2,
            Refusal::NotInPlace => 3,
            Refusal::UnitOut => 4,
            Refusal::KeyTaught => 5,
            Refusal::KeyNotTaught => 6,
            Refusal::NoRoom => 7,
            Refusal::BeyondRecovery => 8,
            Refusal::AtTheLimit => 9,
            Refusal::NotThePlan => 11,
        }
    }
}

// The number of a call's answer.
pub fn number<T: Copy>(answer: Result<T, Refusal>) -> u8
    ensures { result ≡ number answer }
{
    match answer {
        Ok(_) => 0,
        Err(refusal) => u8::from(refusal),
    }
}

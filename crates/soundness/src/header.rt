// A store whose units lie within its bytes, as its header says.
ghost use Rattle.std.specs.Prelude.{◌≡◌, ◌<◌};
ghost use Rattle.buffer.specs.Bytes.{byte};
ghost use Rattle.buffer.specs.Loops.{entries};
ghost use Rattle.model.specs.Layout.{view};
ghost use Rattle.model.specs.Reads.{first_check};
ghost use Rattle.soundness.specs.Keys.{Octets};
ghost use Rattle.soundness.specs.Pieces.{Ranged};

use crate::unit::Unit;

// The store, and the first check unit in service of each group. Its methods borrow it: by value these four numbers are copied at each look-up.
#[derive(Clone, Copy)]
pub struct Header<'a> {
    pub store: &'a [u8],
    pub first_checks: [u8; 4],
    ghost octets: { Octets store.now },
    ghost ranged: { Ranged store.now },
    ghost found: { first_checks ≡ entries 4 (first_check (view store.now)) },
}

impl<'a> Header<'a> {
    // How many slots a unit has, and how many data units are in place.
    pub fn size(&self) -> u8
        ensures { result ≡ byte self.now.store.now 5 }
    {
        self.store[lookup::SIZE_AT]
    }

    pub fn units(&self) -> u8
        ensures { result ≡ byte self.now.store.now 6 }
    {
        self.store[lookup::UNITS_AT]
    }

    // The first check unit in service of group g, or the number behind its last.
    pub fn first_check(&self, g: u8) -> u8
        requires { g < 4 }
        ensures { result ≡ first_check (view self.now.store.now) g }
    {
        self.first_checks[usize::from(g)]
    }

    pub fn unit(&self, u: u8) -> Unit<'a>
        requires { u < 16 }
        ensures { (result.store.now ≡ self.now.store.now) × (result.number ≡ u) }
    {
        Unit {
            store: self.store,
            check: self.first_check(u / 4),
            number: u,
        }
    }
}

// A data unit of a store, and where its keys lie.
ghost use Rattle.std.specs.Prelude.{◌≡◌, ◌+◌, ◌*◌, ◌/◌, ◌≤◌, ◌<◌, false, eqb};
ghost use Rattle.buffer.specs.Bytes.{byte};
ghost use Rattle.soundness.specs.Keys.{Octets};
ghost use Rattle.soundness.specs.Pieces.{Ranged, Kept};

use crate::list::KeyList;
use crate::{keys, places};

// The unit, with the first check unit in service of its group, or the number behind the group's last.
#[derive(Clone, Copy)]
pub struct Unit<'a> {
    pub store: &'a [u8],
    pub check: u8,
    pub number: u8,
    ghost octets: { Octets store.now },
    ghost ranged: { Ranged store.now },
    ghost kept: { Kept store.now (number / 4) check },
    ghost few: { number < 16 },
}

impl<'a> Unit<'a> {
    ghost use Rattle.group.specs.Widths.{slot_bytes};
    ghost use Rattle.model.specs.Layout.{slot_at};
    ghost use Rattle.soundness.specs.KeyLists.{keys_of};
    ghost use Rattle.soundness.specs.Pieces.{data_keys, column_keys, beside_keys, unkept, none_behind, zero_between};

    // How many slots it has, and how many data units are in place.
    fn ranks(self) -> usize
        ensures { result ≡ byte self.entry.store.now 5 }
    {
        usize::from(self.store[lookup::SIZE_AT])
    }

    pub fn units(self) -> u8
        ensures { result ≡ byte self.entry.store.now 6 }
    {
        self.store[lookup::UNITS_AT]
    }

    pub fn serves(self) -> bool
        ensures { result ≡ eqb (byte self.entry.store.now (8 + self.entry.number)) 1 }
    {
        self.store[lookup::DATA_STATES + usize::from(self.number)] == lookup::IN_SERVICE
    }

    // Whether no check unit of its group is in service.
    pub fn unkept(self) -> bool
        ensures { result ≡ unkept self.entry.store.now (self.entry.number / 4) }
    {
        self.check == 3 * (self.number / 4) + 3
    }

    // The keys in its slots.
    pub fn slots(self) -> KeyList<'a>
        ensures { (keys_of result ≡ data_keys self.entry.store.now self.entry.number) × (result.ranks ≡ byte self.entry.store.now 5) }
    {
        KeyList {
            bytes: self.store,
            at: places::slots_at(self.store[lookup::SIZE_AT], self.number),
            step: group::SLOT,
            ranks: self.ranks(),
        }
    }

    // The keys that its check unit lists for it.
    pub fn column(self) -> KeyList<'a>
        requires { unkept self.store.now (self.number / 4) ≡ false }
        ensures { (keys_of result ≡ column_keys self.entry.store.now self.entry.number) × (result.ranks ≡ byte self.entry.store.now 5) }
    {
        let records = places::checks_at(self.store[lookup::SIZE_AT], self.check);
        KeyList {
            bytes: self.store,
            at: records + group::KEY * usize::from(self.number % 4),
            step: group::CHECK,
            ranks: self.ranks(),
        }
    }

    // The list beside its slots: the keys that its check unit lists for it, or the slots themselves where there is none.
    pub fn beside(self) -> KeyList<'a>
        ensures { (keys_of result ≡ beside_keys self.entry.store.now self.entry.number) × (result.ranks ≡ byte self.entry.store.now 5) }
    {
        if self.unkept() {
            self.slots()
        } else {
            self.column()
        }
    }

    // Whether its slots are zero from rank n on.
    pub fn is_zero_from(self, n: u8) -> bool
        requires { n ≤ byte self.store.now 5 }
        ensures { result ≡ zero_between self.entry.store.now (slot_at (byte self.entry.store.now 5) self.entry.number 0 + slot_bytes * n)
            (slot_at (byte self.entry.store.now 5) self.entry.number 0 + slot_bytes * byte self.entry.store.now 5) }
    {
        let at = places::slots_at(self.store[lookup::SIZE_AT], self.number);
        places::zero_between(
            self.store,
            at + group::SLOT * usize::from(n),
            at + group::SLOT * self.ranks(),
        )
    }

    // Whether no key is listed for it behind n.
    pub fn none_behind(self, n: u8) -> bool
        requires { n ≤ byte self.store.now 5 }
        ensures { result ≡ none_behind self.entry.store.now self.entry.number n }
    {
        self.unkept() || keys::no_keys(self.column(), usize::from(n))
    }
}

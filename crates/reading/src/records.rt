// What a list writes.
ghost use Rattle.std.specs.Prelude.{◌≡◌, ◌++◌, ◌+◌, ◌*◌, ◌≤◌, ◌<◌, length, drop};
ghost use Rattle.buffer.specs.Bytes.{byte};
ghost use Rattle.buffer.specs.Table.{tab};
ghost use Rattle.group.specs.Widths.{slot_bytes};
ghost use Rattle.model.specs.Layout.{view};
ghost use Rattle.model.specs.Reads.{listed_fill, whole_slot, total_in, listing_in};
ghost use Rattle.lookup.specs.Groups.{Whole};

use soundness::survey::Survey;

// The records of a store of which nothing is lost, by its survey, and how many there are.
#[derive(Clone, Copy)]
pub struct Records<'a> {
    pub survey: Survey<'a>,
    pub count: usize,
    pub ghost whole: { Whole survey.store.now },
    pub ghost counted: { count ≡ total_in (view survey.store.now) },
}

impl Records<'_> {
    // Rebuilds the slots of data unit u, which is out, one behind the other.
    fn rebuild_unit(&self, u: u8, out: &mut [u8], products: &group::Products)
        requires { (u < 16) × (byte self.now.survey.store.now (8 + u) ≡ 2)
            × (length out.old ≡ slot_bytes * listed_fill (view self.now.survey.store.now) u) }
        ensures { out.new ≡ tab (listed_fill (view self.now.survey.store.now) u) (whole_slot (view self.now.survey.store.now) u) }
    {
        let s = self.survey.store;
        let check = self.survey.first_checks[usize::from(u / 4)];
        let keys = lookup::keys_at(s, u, check);
        let mut last = None;
        for r in 0..self.survey.fills[usize::from(u)] {
            let decoder = lookup::decoders::next_decoder(
                last,
                s,
                u,
                r,
                self.survey.fills,
                products,
            );
            last = Some(decoder);
            let at = group::SLOT * usize::from(r);
            lookup::rebuild_slot(
                &mut out[at..at + group::SLOT],
                s,
                u,
                r,
                keys,
                decoder,
                products,
            );
        }
    }

    // Copies the slots of data unit u, rebuilt where it is out, one behind the other.
    fn copy_unit(&self, u: u8, out: &mut [u8], products: &group::Products)
        requires { (u < 16) × (length out.old ≡ slot_bytes * listed_fill (view self.now.survey.store.now) u) }
        ensures { out.new ≡ tab (listed_fill (view self.now.survey.store.now) u) (whole_slot (view self.now.survey.store.now) u) }
    {
        let s = self.survey.store;
        if lookup::state(s, u) == lookup::OUT {
            self.rebuild_unit(u, out, products);
        } else {
            let at = lookup::slot_at(s[lookup::SIZE_AT], u, 0);
            let end = at + out.len();
            buffer::copy(out, &s[at..end]);
        }
    }

    // Writes the records, unit by unit; what stands behind them stays.
    pub fn write(&self, out: &mut [u8])
        requires { slot_bytes * self.now.count ≤ length out.old }
        ensures { out.new ≡ listing_in (view self.now.survey.store.now) ++ drop (length (listing_in (view self.now.survey.store.now))) out.old }
    {
        let products = group::Products::new();
        let mut at = 0; // by hand: each unit begins where the one before ends, and they differ in length
        for u in 0u8..16 {
            let end = at + group::SLOT * usize::from(self.survey.fills[usize::from(u)]);
            self.copy_unit(u, &mut out[at..end], &products);
            at = end;
        }
    }
}

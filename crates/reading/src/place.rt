// Where a key is read.
ghost use Rattle.std.specs.Prelude.{◌≡◌, length, drop};
ghost use Rattle.group.specs.Widths.{key_bytes, field_bytes};
ghost use Rattle.model.specs.Layout.{view};
ghost use Rattle.model.specs.Reads.{whole_slot};
ghost use Rattle.lookup.specs.Groups.{Readable};

use soundness::survey::Survey;

// A record that can be read, or rebuilt where its unit is out: its unit, and its rank there, in the store of a survey.
#[derive(Clone, Copy)]
pub struct Place<'a> {
    pub survey: Survey<'a>,
    pub unit: u8,
    pub rank: u8,
    pub ghost there: { Readable survey.store.now unit rank },
}

impl Place<'_> {
    // Copies the field of the record, rebuilt where its unit is out.
    pub fn copy_field(&self, out: &mut [u8])
        requires { length out.old ≡ field_bytes }
        ensures { out.new ≡ drop key_bytes (whole_slot (view self.now.survey.store.now) self.now.unit self.now.rank) }
    {
        let s = self.survey.store;
        let u = self.unit;
        let r = self.rank;
        if lookup::state(s, u) == lookup::OUT {
            let products = group::Products::new();
            let decoder = lookup::decoders::decoder_at(s, u, r, self.survey.fills, &products);
            lookup::rebuild_field(out, s, u / 4, r, decoder, &products);
        } else {
            let at = lookup::slot_at(s[lookup::SIZE_AT], u, r) + group::KEY;
            out.copy_from_slice(&s[at..at + group::FIELD]);
        }
    }
}

// The level raised: each group in place gets a check unit.
ghost use Rattle.std.specs.Prelude.{◌≡◌, ◌≤◌, ◌<◌};
ghost use Rattle.buffer.specs.Bytes.{byte};
ghost use Rattle.model.specs.Layout.{bytes, view};
ghost use Rattle.model.specs.Places.{Long};
ghost use Rattle.model.specs.Changes.{raised};
ghost use Rattle.encoding.specs.Made.{is_unit};
ghost use Rattle.splitting.specs.Raising.{with_units, of_groups};

// Makes check unit c from the data, and puts it in service.
fn add_check(s: &mut [u8], c: u8, rows: &group::parities::Rows)
    requires { Long s.old × (c < 12) }
    ensures { s.new ≡ bytes (with_units (is_unit c) (view s.old)) }
{
    encoding::make_unit(s, c, rows);
    s[lookup::CHECK_STATES + usize::from(c)] = lookup::IN_SERVICE;
}

// Adds check unit k, counted from 0, to each group in place, in a store of m units.
fn add_checks(s: &mut [u8], m: u8, k: u8)
    requires { Long s.old × (m ≤ 16) × (k < 3) }
    ensures { s.new ≡ bytes (with_units (of_groups m k) (view s.old)) }
{
    let rows = group::parities::Rows::new();
    let groups = (m + 3) / 4;
    for g in 0..groups {
        add_check(s, 3 * g + k, &rows);
    }
}

// Raises the level, which is below 3, by one.
pub fn raise_level(s: &mut [u8])
    requires { Long s.old × (byte s.old 6 ≤ 16) × (byte s.old 7 < 3) }
    ensures { s.new ≡ bytes (raised (view s.old)) }
{
    let m = s[lookup::UNITS_AT];
    let k = s[lookup::LEVEL_AT];
    add_checks(s, m, k);
    s[lookup::LEVEL_AT] = k + 1;
}

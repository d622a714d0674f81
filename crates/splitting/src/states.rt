// The header of a store that grows or shrinks: how many units it has, and the states of units.
ghost use Rattle.std.specs.Prelude.{◌≡◌, ◌<◌};
ghost use Rattle.model.specs.Layout.{bytes, view};
ghost use Rattle.model.specs.Places.{Long};
ghost use Rattle.encoding.specs.Made.{in_group};
ghost use Rattle.splitting.specs.Steps.{marked, levelled, of_first};

// The store has m units, and data unit u this state.
pub fn mark(s: &mut [u8], m: u8, u: u8, state: u8)
    requires { Long s.old × (u < 16) }
    ensures { s.new ≡ bytes (marked (view s.old) m u state) }
{
    s[lookup::UNITS_AT] = m;
    s[lookup::DATA_STATES + usize::from(u)] = state;
}

// The lowest check units of group g, this many, are in service, and its others not in place.
fn set_checks(s: &mut [u8], g: u8, level: u8)
    requires { Long s.old × (g < 4) }
    ensures { s.new ≡ bytes (levelled (in_group g) level (view s.old)) }
{
    for j in 0u8..3 {
        s[lookup::CHECK_STATES + usize::from(3 * g + j)] = u8::from(j < level);
    }
}

// The same of the group of data unit u, if u is the first of its group.
pub fn set_first(s: &mut [u8], u: u8, level: u8)
    requires { Long s.old × (u < 16) }
    ensures { s.new ≡ bytes (levelled (of_first u) level (view s.old)) }
{
    if u % 4 == 0 {
        set_checks(s, u / 4, level);
    }
}

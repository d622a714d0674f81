// The check units of a group made anew from the data, and cleared.
ghost use Rattle.std.specs.Prelude.{◌≡◌, ◌<◌};
ghost use Rattle.model.specs.Units.{split_pointer};
ghost use Rattle.model.specs.Layout.{bytes, view};
ghost use Rattle.model.specs.Places.{Long};
ghost use Rattle.encoding.specs.Made.{made_in, is_unit, in_group};
ghost use Rattle.splitting.specs.Steps.{wiped, of_first, of_both};

// Makes the check units in service of the groups of unit m and of unit n, which m is split from, anew.
pub fn make_groups(s: &mut [u8], n: u8, m: u8)
    requires { Long s.old × (n ≡ split_pointer m) × (n < m) × (m < 16) }
    ensures { s.new ≡ bytes (made_in 1 (of_both m) (view s.old)) }
{
    let rows = group::parities::Rows::new();
    encoding::make_group(s, m / 4, &rows);
    if n / 4 != m / 4 {
        encoding::make_group(s, n / 4, &rows);
    }
}

// Clears check unit c.
fn clear_unit(s: &mut [u8], c: u8)
    requires { Long s.old × (c < 12) }
    ensures { s.new ≡ bytes (wiped (is_unit c) (view s.old)) }
{
    let b = s[lookup::SIZE_AT];
    let from = lookup::check_at(b, c, 0);
    let to = lookup::check_at(b, c, b);
    buffer::clear(&mut s[from..to]);
}

// Clears the check units of group g.
fn clear_checks(s: &mut [u8], g: u8)
    requires { Long s.old × (g < 4) }
    ensures { s.new ≡ bytes (wiped (in_group g) (view s.old)) }
{
    for c in 3 * g..3 * g + 3 {
        clear_unit(s, c);
    }
}

// The same of the group of data unit u, if u is the first of its group.
pub fn clear_first(s: &mut [u8], u: u8)
    requires { Long s.old × (u < 16) }
    ensures { s.new ≡ bytes (wiped (of_first u) (view s.old)) }
{
    if u % 4 == 0 {
        clear_checks(s, u / 4);
    }
}

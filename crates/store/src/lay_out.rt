// Lay out: an empty store in a lent slice.
ghost use Rattle.std.specs.Prelude.{◌≡◌, [], ◌∷◌, ◌++◌, ◌≤◌, IfOk};
ghost use Rattle.buffer.specs.Bytes.{zeros};
ghost use Rattle.refusal.specs.Number.{number};
ghost use Rattle.model.specs.Layout.{front_of, store_bytes};
ghost use Rattle.model.specs.Perform.{outcome, plain, lay_out, lay_out_number};

use refusal::Refusal;

// How long a store with b ranks to a unit is, where b is 1 to 64 and the slice has room for it.
fn size_for(s: &[u8], b: u32) -> Result<usize, Refusal>
    ensures verdict { number result ≡ lay_out_number s.now b }
    ensures size { IfOk result (λ n. n ≡ store_bytes b) }
{
    if b < 1 {
        return Err(Refusal::BadArgument);
    }
    if 64 < b {
        return Err(Refusal::BadArgument);
    }
    let size = lookup::HEADER + lookup::PER_RANK * (b as usize);
    if s.len() < size {
        return Err(Refusal::NoRoom);
    }
    Ok(size)
}

// The header of an empty store: version, length, b, M = 1, K = 1, data unit 0 and check unit 0 in service.
fn header(b: u32) -> [u8; lookup::HEADER]
    requires { b ≤ 64 }
    ensures { result ≡ front_of b 1 1 ++ ((1 ∷ zeros 15) ++ (1 ∷ zeros 11)) }
{
    let size = lookup::HEADER as u32 + lookup::PER_RANK as u32 * b;
    let mut head = [0u8; lookup::HEADER];
    head[0] = lookup::VERSION;
    head[lookup::LENGTH_AT..lookup::SIZE_AT].copy_from_slice(&size.to_be_bytes());
    head[lookup::SIZE_AT] = b as u8;
    head[lookup::UNITS_AT] = 1;
    head[lookup::LEVEL_AT] = 1;
    head[lookup::DATA_STATES] = lookup::IN_SERVICE;
    head[lookup::CHECK_STATES] = lookup::IN_SERVICE;
    head
}

// Lays out an empty store with b ranks to a unit. Bytes behind it are not touched.
pub fn lay_out(s: &mut [u8], b: u32) -> Result<(), Refusal>
    ensures { outcome (plain (number result)) s.new ≡ lay_out s.old b }
{
    let size = size_for(s, b)?;
    buffer::clear(&mut s[lookup::HEADER..size]);
    s[0..lookup::HEADER].copy_from_slice(&header(b));
    Ok(())
}

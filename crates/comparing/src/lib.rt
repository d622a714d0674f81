// For the comparisons of tests/ alone: names for C for what only Rattle can call. No crate of the store uses them.
#![tactic(auto)]

ghost use Rattle.std.specs.Prelude.{◌≡◌, ◌++◌, ◌+◌, ◌%◌, ltb, length, drop};
ghost use Rattle.buffer.specs.Choice.{pick};
ghost use Rattle.code.specs.Matrix.{entry, Rebuilds};
ghost use Rattle.field256.specs.Gf256.{product};
ghost use Rattle.model.specs.Units.{unit_of};
ghost use Rattle.model.specs.Numbers.{Call};
ghost use Rattle.model.specs.Perform.{given_in};

// Read in place: copies the part handed back to the front of out, where that is long enough, and returns the part's length. A reference cannot be
// returned to C.
#[unsafe(no_mangle)]
pub extern "C" fn compared_read_in_place(store: &[u8], key: u32, out: &mut [u8]) -> usize
    ensures length { result ≡ length (given_in store.now (Call.read_in_place key)) }
    ensures bytes { out.new ≡ pick (ltb (length out.old) result) out.old
        (given_in store.now (Call.read_in_place key) ++ drop result out.old) }
{
    let part = reading::read_in_place(store, key);
    let n = part.len();
    if out.len() < n {
        return n;
    }
    buffer::copy(&mut out[..n], part);
    n
}

// The code layer's rebuilding; the data symbols go into the array that the caller lends.
#[unsafe(no_mangle)]
pub extern "C" fn compared_rebuild(columns: &[u8; 4], symbols: &[u8; 4], data: &mut [u8; 4]) -> u8
    ensures { Rebuilds columns.now symbols.now result «data».new }
{
    let rebuilt = code::rebuild(*columns, *symbols);
    *data = rebuilt.unwrap_or([0u8; 4]);
    refusal::number(rebuilt)
}

// An entry of the matrix.
#[unsafe(no_mangle)]
pub extern "C" fn compared_coefficient(place: usize, column: usize) -> u8
    ensures { result ≡ entry (place % 4) (column % 17) }
{
    code::coefficient(place % 4, column % 17)
}

// The product of GF(256), by logarithms.
#[unsafe(no_mangle)]
pub extern "C" fn compared_product(a: u8, b: u8) -> u8
    ensures { result ≡ product a b }
{
    field256::Logarithms::new().mul(a, b)
}

// The unit of a key among the units 0 to last; of last the remainder by 16 is taken.
#[unsafe(no_mangle)]
pub extern "C" fn compared_unit_of(last: u8, key: u32) -> u8
    ensures { result ≡ unit_of (last % 16 + 1) key }
{
    lookup::unit_of(last % 16 + 1, key)
}

// Layer 3, group: the four data units of a group and its check units. Bodies, parity and check records of one rank, who is in service, and rebuilding.
// The table of products is taken once by the caller and lent.
#![tactic(auto)]

pub mod parities;

ghost use Rattle.std.specs.Prelude.{◌==◌, count_by, take, ◌≡◌, true, ◌+◌, ◌≤◌, ◌<◌, length, eqb};
ghost use Rattle.buffer.specs.Bytes.{byte};
ghost use Rattle.buffer.specs.Range.{count};
ghost use Rattle.code.specs.Scaling.{scale};
ghost use Rattle.code.specs.Matrix.{within};
ghost use Rattle.group.specs.Widths.{check_bytes};
ghost use Rattle.group.specs.Body.{add_body, scale_body};
ghost use Rattle.group.specs.Parity.{coefficient};
ghost use Rattle.group.specs.CheckRecord.{patched};
ghost use Rattle.group.specs.Members.{rebuildable, serves, next, first_four};
ghost use Rattle.group.specs.Rebuilding.{weighed};
ghost use Rattle.group.specs.Four.{four_bodies};

pub use code::Products;

// The widths of a record's parts, in bytes: a key; a field, which has a body and behind it a stamp; a slot, which has a key and a field; the four keys of
// a check record, and a check record, which has these and the parity of four fields.
pub const KEY: usize = 4;

pub const BODY: usize = 16;

pub const STAMP: usize = 4;

pub const FIELD: usize = BODY + STAMP;

pub const SLOT: usize = KEY + FIELD;

pub const KEYS: usize = 4 * KEY;

pub const CHECK: usize = KEYS + FIELD;

// The coefficient of the data unit at a place in the check unit at a check place.
pub fn coefficient(place: u8, check: u8) -> u8
    requires { (place < 4) × (check < 3) }
    ensures { (result ≡ coefficient place check) × (result < 16) }
{
    code::coefficient(usize::from(place), 4 + usize::from(check))
}

// Adds a body to another.
pub fn add(into: &mut [u8], x: &[u8])
    requires { length into.old ≡ length x.now }
    ensures { into.new ≡ add_body into.old x.now }
{
    for i in 0..into.len() {
        into[i] ^= x[i];
    }
}

// A byte times a symbol; times 1 it is the byte itself, and nothing is looked up.
fn times(products: &Products, symbol: u8, b: u8) -> u8
    requires { symbol < 16 }
    ensures { result ≡ scale symbol b }
{
    if symbol == 1 {
        return b;
    }
    products.scale(symbol, b)
}

// Adds a body, times a symbol, to a parity.
pub fn add_scaled(parity: &mut [u8], body: &[u8], symbol: u8, products: &Products)
    requires { (length parity.old ≡ length body.now) × (symbol < 16) }
    ensures { parity.new ≡ add_body parity.old (scale_body symbol body.now) }
{
    for i in 0..parity.len() {
        parity[i] ^= times(products, symbol, body[i]);
    }
}

// A check record follows: the record at a place got this key, and its field this change. Both come by value: the compiler knows that they stand apart
// from the record.
pub fn follow(
    into: &mut [u8],
    check: u8,
    place: u8,
    key: [u8; KEY],
    change: [u8; FIELD],
    products: &Products,
)
    requires { (length into.old ≡ check_bytes) × (check < 3) × (place < 4) }
    ensures { into.new ≡ patched check place key change into.old }
{
    let at = KEY * usize::from(place);
    into[at..at + KEY].copy_from_slice(&key);
    add_scaled(
        &mut into[KEYS..CHECK],
        &change,
        coefficient(place, check),
        products,
    );
}

// How many of the first n bytes are 1.
fn ones(x: &[u8], n: u8) -> u8
    ensures { result ≡ count_by (λ b. b == 1) (take n x.now) }
{
    x.iter().take(usize::from(n)).filter(|b| **b == 1).count() as u8
}

// Whether a rank can be rebuilt: missing has a 1 for each data unit that is out and has a record there, c are the states of the check units.
pub fn rebuildable(missing: &[u8], c: &[u8]) -> bool
    ensures { result ≡ rebuildable (λ p. eqb (byte missing.now p) 1) (byte c.now) }
{
    ones(missing, 4) <= ones(c, 3)
}

// Whether a member is in service at a rank: 0 to 3 the data units, whose record there is not missing, 4 to 6 the check units.
pub fn serving(missing: &[u8], c: &[u8], member: u8) -> bool
    ensures { result ≡ serves (λ p. eqb (byte missing.now p) 1) (byte c.now) member }
{
    if member < 4 {
        buffer::byte_at(missing, usize::from(member)) != 1
    } else {
        buffer::byte_at(c, usize::from(member - 4)) == 1
    }
}

// The first member in service from one on, or 7.
fn next_serving(missing: &[u8], c: &[u8], from: u8) -> u8
    ensures { (result ≡ next (serves (λ p. eqb (byte missing.now p) 1) (byte c.now)) from) × (result ≤ from + 7) }
{
    for member in from..7 {
        if serving(missing, c, member) {
            return member;
        }
    }
    from.max(7)
}

// The first four members in service at a rank, in number order.
pub fn first_four(missing: &[u8], c: &[u8]) -> [u8; 4]
    ensures { result ≡ first_four (serves (λ p. eqb (byte missing.now p) 1) (byte c.now)) }
{
    let a = next_serving(missing, c, 0);
    let b = next_serving(missing, c, a + 1);
    let e = next_serving(missing, c, b + 1);
    let f = next_serving(missing, c, e + 1);
    [a, b, e, f]
}

// Four bodies, each times its weight, added up.
pub fn rebuild_body(
    out: &mut [u8],
    weights: [u8; 4],
    a: &[u8],
    b: &[u8],
    c: &[u8],
    d: &[u8],
    products: &Products,
)
    requires { (length a.now ≡ length out.old) × (length b.now ≡ length out.old) × (length c.now ≡ length out.old)
        × (length d.now ≡ length out.old) × (within 15 weights ≡ true) }
    ensures { out.new ≡ weighed weights (four_bodies a.now b.now c.now d.now) }
{
    for i in 0..out.len() {
        out[i] = code::mix(products, weights, [a[i], b[i], c[i], d[i]]);
    }
}

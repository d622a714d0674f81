// The decoder of a rank: by which members and weights a missing record is rebuilt. Along the ranks it changes only where the list of an out unit of the
// group ends, so it is taken once for each stretch of ranks.
ghost use Rattle.std.specs.Prelude.{◌≡◌, ◌+◌, ◌*◌, ◌/◌, ◌<◌, IfSome};
ghost use Rattle.model.specs.Layout.{view};
ghost use Rattle.lookup.specs.Sized.{Sized};
ghost use Rattle.lookup.specs.Groups.{Counts, Rebuildable};
ghost use Rattle.lookup.specs.Decoders.{ends_before, changes_at, DecoderOf};

use crate::losses;

// The first four members in service at a rank, their weights, and the next rank at which these are others.
#[derive(Clone, Copy)]
pub struct Decoder {
    pub members: [u8; 4],
    pub weights: [u8; 4],
    pub until: u8,
}

// Where the list of the data unit at place p of group g ends, if its record of rank r is missing and that is before the end given; else that end.
fn ends_before(s: &[u8], g: u8, p: u8, r: u8, fills: [u8; 16], end: u8) -> u8
    requires { (g < 4) × (p < 4) × Counts s.now g fills }
    ensures { result ≡ ends_before (view s.now) g p r end }
{
    if !losses::missing(s, g, p, r, fills) {
        return end;
    }
    let n = fills[usize::from(4 * g + p)];
    if n < end {
        return n;
    }
    end
}

// The first rank behind r at which fewer records of group g are missing; b where there is none.
fn changes_at(s: &[u8], g: u8, r: u8, fills: [u8; 16]) -> u8
    requires { Sized s.now × (g < 4) × Counts s.now g fills }
    ensures { result ≡ changes_at (view s.now) g r }
{
    let mut end = s[crate::SIZE_AT];
    for p in 0u8..4 {
        end = ends_before(s, g, p, r, fills, end);
    }
    end
}

// The decoder of data unit u at rank r, where its record is missing.
pub fn decoder_at(s: &[u8], u: u8, r: u8, fills: [u8; 16], products: &group::Products) -> Decoder
    requires { Rebuildable s.now u r × Counts s.now (u / 4) fills }
    ensures { DecoderOf s.now u r result.members result.weights result.until }
{
    let members = losses::members(s, u / 4, r, fills);
    let weights = code::weights(products, members, u % 4);
    let until = changes_at(s, u / 4, r, fills);
    Decoder {
        members,
        weights,
        until,
    }
}

// The same, where the last rank's decoder may be at hand: one is taken anew only where it has changed.
pub fn next_decoder(
    last: Option<Decoder>,
    s: &[u8],
    u: u8,
    r: u8,
    fills: [u8; 16],
    products: &group::Products,
) -> Decoder
    requires { Rebuildable s.now u r × Counts s.now (u / 4) fills
        × IfSome last (λ d. r < d.until → DecoderOf s.now u r d.members d.weights d.until) }
    ensures { DecoderOf s.now u r result.members result.weights result.until }
{
    match last {
        Some(decoder) if r < decoder.until => decoder,
        _ => decoder_at(s, u, r, fills, products),
    }
}

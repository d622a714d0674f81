// Sums of whole members times their weights, by the weights' binary digits, highest first: the sum so far is doubled, and the members whose weight has
// the digit are added, four in a pass. No pass multiplies or looks up, so the compiler works on many bytes at once.
ghost use Rattle.std.specs.Prelude.{◌≡◌, ℕ, ◌*◌, ◌/◌, ◌%◌, ◌^◌, ◌≤◌, ◌<◌, ◌+◌, length, slice_index};
ghost use Rattle.std.specs.Int.Bits.{bit_xor};
ghost use Rattle.buffer.specs.Choice.{pick};
ghost use Rattle.buffer.specs.Bytes.{byte};
ghost use Rattle.buffer.specs.Loops.{entries};
ghost use Rattle.field256.specs.Gf256.{product};
ghost use Rattle.coder.specs.Segment.{longest_member};
ghost use Rattle.coder.specs.Sums.{room_for_places, Placed, Blank, Small, Inside, four_bytes, digit_sum, weighted_sum, Picked};

use crate::marks::Points;

// How many members are added in a pass.
const FOUR: usize = 4;

// The members of a group that have a digit, and four places of zeros behind them.
const PLACES: usize = super::LARGEST_GROUP + FOUR;

// The binary digit b of w.
fn digit(w: u8, b: u8) -> u8
    requires { b < 8 }
    ensures { result ≡ w / 2 ^ b % 2 }
{
    (w >> b) % 2
}

// Where member c of members of len bytes starts.
pub fn place(len: usize, c: u8) -> usize
    requires { len ≤ longest_member }
    ensures { (result ≡ len * c) × (result ≤ longest_member * 255) }
{
    len * usize::from(c)
}

// Members of len bytes in s, of which those at the points are to be added up, each times its weight; zeros stand at `none`.
#[derive(Drop)]
pub struct Weighted<'a> {
    pub s: &'a [u8],
    pub len: usize,
    pub points: &'a Points,
    pub weights: &'a [u8; super::LARGEST_GROUP],
    pub none: usize,
    ghost short: { len ≤ longest_member },
    ghost placed: { Placed len s.now points.now.list points.now.m },
    ghost blank: { Blank len s.now none },
    ghost small: { Small weights.now points.now.m },
    ghost bytes: { (j : ℕ) → byte s.now j < 256 },
}

impl<'a> Weighted<'a> {
    // Where the members whose weight has the binary digit b start, and behind them four times `none`; returns how many they are. Each member's place is
    // written, and kept where the digit is 1: there is no branch to be guessed.
    fn pick_digit(&self, places: &mut [usize; PLACES], b: u8) -> usize
        requires { b < 8 }
        ensures { Picked self.now.len self.now.s.now self.now.points.now.list self.now.weights.now b self.now.points.now.m self.now.none places.new result }
    {
        let mut k = 0;
        for i in 0..self.points.m {
            places[k] = place(self.len, self.points.list[i]);
            k += usize::from(digit(self.weights[i], b));
        }
        places[k..k + FOUR].fill(self.none);
        k
    }

    // Adds the members at four places from place r on; where asked, the sum so far is doubled first.
    fn add_four<const DOUBLED: bool>(&self, acc: &mut [u8], places: &[usize; PLACES], r: usize)
        requires { (r + 4 ≤ room_for_places) × Inside (length acc.old) self.now.s.now
            (slice_index places.now r) (slice_index places.now (r + 1)) (slice_index places.now (r + 2)) (slice_index places.now (r + 3)) }
        ensures { acc.new ≡ entries (length acc.old) (λ j. bit_xor (pick DOUBLED (product 2 (byte acc.old j)) (byte acc.old j))
            (four_bytes self.now.s.now (slice_index places.now r) (slice_index places.now (r + 1)) (slice_index places.now (r + 2)) (slice_index places.now (r + 3)) j)) }
    {
        let s = self.s;
        let a = places[r];
        let b = places[r + 1];
        let c = places[r + 2];
        let d = places[r + 3];
        for j in 0..acc.len() {
            let x = if DOUBLED {
                field256::twice(acc[j])
            } else {
                acc[j]
            };
            acc[j] = x ^ ((s[a + j] ^ s[b + j]) ^ (s[c + j] ^ s[d + j]));
        }
    }

    // Doubles the sum, and adds the members whose weight has the binary digit b.
    fn add_digit(&self, acc: &mut [u8], places: &mut [usize; PLACES], b: u8)
        requires { (b < 8) × (length acc.old ≡ self.now.len) }
        ensures { acc.new ≡ entries self.now.len (λ j. bit_xor (product 2 (byte acc.old j))
            (digit_sum self.now.len self.now.s.now self.now.points.now.list self.now.weights.now b self.now.points.now.m j)) }
    {
        let k = self.pick_digit(places, b);
        self.add_four::<true>(acc, places, 0);
        for r in (FOUR..k).step_by(FOUR) {
            self.add_four::<false>(acc, places, r);
        }
    }

    // The sum, by the digits from the highest down.
    pub fn sum(&self, acc: &mut [u8])
        requires { length acc.old ≡ self.now.len }
        ensures { acc.new ≡ entries self.now.len
            (weighted_sum self.now.len self.now.s.now self.now.points.now.list self.now.weights.now 0 self.now.points.now.m) }
    {
        let mut places = [0usize; PLACES];
        buffer::clear(acc);
        for b in (0..8).rev() {
            self.add_digit(acc, &mut places, b);
        }
    }
}

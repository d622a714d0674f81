// The parities of four fields at check place 0 and at all three check places, by two rows of products.
ghost use Rattle.std.specs.Prelude.{◌≡◌, ◌+◌, ◌≤◌, ◌<◌, length};
ghost use Rattle.std.specs.Int.Bits.{bit_xor};
ghost use Rattle.buffer.specs.Bytes.{part, splice};
ghost use Rattle.code.specs.Scaling.{scale};
ghost use Rattle.group.specs.Widths.{field_bytes};
ghost use Rattle.group.specs.Parity.{parity};
ghost use Rattle.group.specs.Four.{four_bodies};
ghost use Rattle.group.specs.ScaledRow.{scaled_row, first_row, second_row};
ghost use Rattle.group.specs.FirstSums.{first_sum, first_sums};

use super::Products;

// The bytes of a word, as many of which are taken at once.
const WORD: usize = 4;

// The products of every byte with a symbol.
fn scaled_row(w: u8, products: &Products) -> [u8; 256]
    requires { w < 16 }
    ensures { result ≡ scaled_row w }
{
    let mut row = [0u8; 256];
    for i in 0..256 {
        row[i] = products.scale(w, i as u8);
    }
    row
}

// Every byte times 8, and times 7: what parities are looked up in. A caller takes the two rows once and lends them.
#[derive(Drop)]
pub struct Rows {
    pub eights: [u8; 256],
    pub sevens: [u8; 256],
    pub ghost times_eight: { eights ≡ first_row },
    pub ghost times_seven: { sevens ≡ second_row },
}

impl Rows {
    pub fn new() -> Self {
        let products = Products::new();
        Rows {
            eights: scaled_row(8, &products),
            sevens: scaled_row(7, &products),
        }
    }

    // 8 times x, 7 times y and z, added up.
    fn sum(&self, x: u8, y: u8, z: u8) -> u8
        ensures { result ≡ bit_xor (bit_xor (scale 8 x) (scale 7 y)) z }
    {
        self.eights[usize::from(x)] ^ self.sevens[usize::from(y)] ^ z
    }

    // The sum of four bytes, each times its coefficient in check place 0: 8a + Fb + c + 7d. That is 8 times a + b, 7 times b + d, and c.
    fn mix(&self, a: u8, b: u8, c: u8, d: u8) -> u8
        ensures { result ≡ first_sum a b c d }
    {
        self.sum(a ^ b, b ^ d, c)
    }

    // The same sum as that of `mix` for each byte of four words, lowest byte first.
    fn mix_words(&self, a: u32, b: u32, c: u32, d: u32) -> [u8; WORD]
        ensures { result ≡ first_sums a b c d }
    {
        let x = (a ^ b).to_le_bytes();
        let y = (b ^ d).to_le_bytes();
        let z = c.to_le_bytes();
        [
            self.sum(x[0], y[0], z[0]),
            self.sum(x[1], y[1], z[1]),
            self.sum(x[2], y[2], z[2]),
            self.sum(x[3], y[3], z[3]),
        ]
    }

    // The parity at check place 0 of the fields that stand in s from a, b, c and d on, written from `to` on, behind them: so it needs no array of its own.
    // At another check place the parity is that of the fields exchanged by pairs. A turn takes a word of each: one load where bytes would be four.
    pub fn write_first(&self, s: &mut [u8], to: usize, a: usize, b: usize, c: usize, d: usize)
        requires { (to + field_bytes ≤ length s.old) × (a + field_bytes ≤ to) × (b + field_bytes ≤ to) × (c + field_bytes ≤ to) × (d + field_bytes ≤ to) }
        ensures { s.new ≡ splice to field_bytes (parity 0 (four_bodies (part a field_bytes s.old) (part b field_bytes s.old)
            (part c field_bytes s.old) (part d field_bytes s.old))) s.old }
    {
        for k in 0..super::FIELD / WORD { // body and stamp
            let i = WORD * k;
            let p = buffer::low32(s, a + i);
            let q = buffer::low32(s, b + i);
            let u = buffer::low32(s, c + i);
            let v = buffer::low32(s, d + i);
            let sums = self.mix_words(p, q, u, v);
            s[to + i..to + i + WORD].copy_from_slice(&sums);
        }
    }

    // The parities of four fields at the three check places. Check places 1 and 2 have the coefficients of check place 0 with the places exchanged by pairs.
    pub fn fill(
        &self,
        x: &mut [u8],
        y: &mut [u8],
        z: &mut [u8],
        a: &[u8],
        b: &[u8],
        c: &[u8],
        d: &[u8],
    )
        requires { (length x.old ≡ field_bytes) × (length y.old ≡ field_bytes) × (length z.old ≡ field_bytes) × (length a.now ≡ field_bytes)
            × (length b.now ≡ field_bytes) × (length c.now ≡ field_bytes) × (length d.now ≡ field_bytes) }
        ensures { (x.new ≡ parity 0 (four_bodies a.now b.now c.now d.now))
            × (y.new ≡ parity 1 (four_bodies a.now b.now c.now d.now))
            × (z.new ≡ parity 2 (four_bodies a.now b.now c.now d.now)) }
    {
        for i in 0..super::FIELD {
            let e = a[i];
            let f = b[i];
            let g = c[i];
            let h = d[i];
            x[i] = self.mix(e, f, g, h);
            y[i] = self.mix(f, e, h, g);
            z[i] = self.mix(g, h, e, f);
        }
    }
}

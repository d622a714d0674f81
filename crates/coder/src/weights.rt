// Lagrange's weights of the first m points at a missing one, by logarithms: m lookups and m sums for a missing member.
ghost use Rattle.std.specs.Prelude.{◌≡◌};
ghost use Rattle.coder.specs.Weights.{log_others, Away, Others, Weighed};

use crate::marks::Points;
use field256::Logarithms;

// A multiple of the order, no less than the logarithms of a group's differences and one more.
const HEADROOM: usize = (super::LARGEST_GROUP + 1) * field256::ORDER;

// The logarithm of the product of the differences of c and the other points.
fn log_others(logs: &Logarithms, points: &Points, c: u8) -> usize
    ensures { result ≡ log_others c points.now.list points.now.m }
{
    let mut s = 0;
    for p in &points.list[..points.m] {
        if *p != c {
            s += logs.log(c ^ *p);
        }
    }
    s
}

// What the weights at any point share: the table of logarithms, and for each point the logarithm of the product of its differences with the others.
#[derive(Drop)]
pub struct Lagrange<'a> {
    pub points: &'a Points,
    logs: &'a Logarithms,
    others: [usize; super::LARGEST_GROUP],
    ghost known: { Others others points.now.list points.now.m points.now.m },
}

impl<'a> Lagrange<'a> {
    pub fn new(points: &'a Points, logs: &'a Logarithms) -> Lagrange<'a>
        ensures { result.points.now ≡ points.now }
    {
        let mut others = [0usize; super::LARGEST_GROUP];
        for i in 0..points.m {
            others[i] = log_others(logs, points, points.list[i]);
        }
        Lagrange {
            points,
            logs,
            others,
        }
    }

    // The weights of the points at q, which is none of them.
    pub fn weights(&self, q: u8) -> [u8; super::LARGEST_GROUP]
        requires { Away self.now.points.now.list self.now.points.now.m q }
        ensures { Weighed result self.now.points.now.list self.now.points.now.m q self.now.points.now.m }
    {
        let all = log_others(self.logs, self.points, q) + HEADROOM;
        let mut weights = [0u8; super::LARGEST_GROUP];
        for i in 0..self.points.m {
            let own = self.logs.log(q ^ self.points.list[i]);
            weights[i] = field256::power(all - (own + self.others[i]));
        }
        weights
    }
}

// The marks of a segment, a byte for each member: 1 where it is present, 0 where it is missing.
ghost use Rattle.std.specs.Prelude.{◌≡◌, ◌≤◌, ◌<◌, length, take, IfSome, IfNone};
ghost use Rattle.coder.specs.Segment.{largest_group, most_members, marks_fit, presents, chosen};
ghost use Rattle.coder.specs.Sums.{Small};

// Whether every mark is 0 or 1.
pub fn marks_fit(marks: &[u8]) -> bool
    ensures { result ≡ marks_fit marks.now }
{
    for mark in marks {
        if 1 < *mark {
            return false;
        }
    }
    true
}

// Members by their numbers, which are points of the field: the first m of the list. An array and m, and no Vec: nothing is allocated.
#[derive(Drop)]
pub struct Points {
    pub list: [u8; super::LARGEST_GROUP],
    pub m: usize,
    ghost group: { m ≤ largest_group },
    ghost small: { Small list m },
}

impl Points {
    // The first m present members, where so many are.
    pub fn first_present(marks: &[u8], m: usize) -> Option<Points>
        requires { (m ≤ largest_group) × (length marks.now ≤ most_members) }
        ensures found { IfSome result (λ points. (points.m ≡ m) × (take m points.list ≡ chosen m marks.now)) }
        ensures few { IfNone result (length (presents marks.now (length marks.now)) < m) }
    {
        let mut list = [0u8; super::LARGEST_GROUP];
        let mut seen: usize = 0;
        for (c, mark) in marks.iter().enumerate() {
            if *mark == 1 {
                if seen < m {
                    list[seen] = c as u8;
                }
                seen += 1;
            }
        }
        if seen < m {
            None
        } else {
            Some(Points { list, m })
        }
    }
}

// The byte coder for wide groups, over GF(256). A segment is m to 64 members, equal stretches of one slice, of which the first m are data; member c is the
// value at point c of the polynomial through the data, byte by byte. Missing members are rebuilt from the first m present ones.
#![tactic(auto)]

mod marks;
mod sums;
mod weights;

ghost use Rattle.std.specs.Prelude.{◌≡◌, ◌+◌, ◌*◌, ◌/◌, ◌≤◌, length, take};
ghost use Rattle.algebra.specs.Polynomial.{Distinct};
ghost use Rattle.buffer.specs.Bytes.{splice};
ghost use Rattle.buffer.specs.Loops.{entries};
ghost use Rattle.refusal.specs.Number.{number};
ghost use Rattle.coder.specs.Segment.{most_members, longest_member, sizes_fit, chosen, member_from, members_after, ending, rebuild_segment};
ghost use Rattle.coder.specs.MemberLaws.{Fitting};
ghost use Rattle.coder.specs.Weights.{Away};
ghost use Rattle.coder.specs.Sums.{Placed};

use marks::Points;
use refusal::Refusal;
use sums::Weighted;
use weights::Lagrange;

// The most members that are data.
const LARGEST_GROUP: usize = 32;
// The most members of a segment.
const MOST_MEMBERS: usize = 64;
// The most bytes of a member.
const LONGEST_MEMBER: usize = 1024;

// Whether a group size, a number of members and their bytes go together.
fn sizes_fit(m: usize, n: usize, bytes: usize) -> bool
    ensures { result ≡ sizes_fit m n bytes }
{
    1 <= m
        && m <= LARGEST_GROUP
        && m <= n
        && n <= MOST_MEMBERS
        && 1 <= bytes / n
        && bytes / n <= LONGEST_MEMBER
        && bytes % n == 0
}

// Rebuilds member c. Its own stretch is cleared first: where it stands, zeros can be added.
fn rebuild_member(members: &mut [u8], scratch: &mut [u8], lagrange: &Lagrange<'_>, c: u8)
    requires { (length scratch.old ≤ longest_member) × Placed (length scratch.old) members.old lagrange.now.points.now.list lagrange.now.points.now.m
        × Away lagrange.now.points.now.list lagrange.now.points.now.m c × Distinct (take lagrange.now.points.now.m lagrange.now.points.now.list)
        × (length scratch.old * c + length scratch.old ≤ length members.old) }
    ensures { members.new ≡ splice (length scratch.old * c) (length scratch.old)
        (member_from (take lagrange.now.points.now.m lagrange.now.points.now.list) (length scratch.old) members.old c) members.old }
{
    let weights = lagrange.weights(c);
    let len = scratch.len();
    let at = sums::place(len, c);
    buffer::clear(&mut members[at..at + len]);
    let weighted = Weighted {
        s: members,
        len,
        points: lagrange.points,
        weights: &weights,
        none: at,
    };
    weighted.sum(scratch);
    members[at..at + len].copy_from_slice(scratch);
}

// Rebuilds every missing member, and marks it; scratch is a member long.
fn rebuild_missing(
    members: &mut [u8],
    marks: &mut [u8],
    scratch: &mut [u8],
    lagrange: &Lagrange<'_>,
)
    requires { (length scratch.old ≤ longest_member) × (length marks.old ≤ most_members)
        × (length members.old ≡ length scratch.old * length marks.old)
        × (take lagrange.now.points.now.m lagrange.now.points.now.list ≡ chosen lagrange.now.points.now.m marks.old) }
    ensures { (members.new ≡ members_after lagrange.now.points.now.m marks.old (length scratch.old) members.old)
        × (marks.new ≡ entries (length marks.old) (λ c. 1)) }
{
    for c in 0..marks.len() {
        if marks[c] != 1 {
            rebuild_member(members, scratch, lagrange, c as u8);
        }
        marks[c] = 1;
    }
}

// Rebuilds every missing member of a segment from the first m present ones, the points: what these share is made once.
fn rebuild_from(members: &mut [u8], marks: &mut [u8], points: &Points)
    requires { Fitting points.now.m (length marks.old) (length members.old) × (take points.now.m points.now.list ≡ chosen points.now.m marks.old) }
    ensures { (members.new
        ≡ members_after points.now.m marks.old (length members.old / length marks.old) members.old)
        × (marks.new ≡ entries (length marks.old) (λ c. 1)) }
{
    let len = members.len() / marks.len();
    let logs = field256::Logarithms::new();
    let lagrange = Lagrange::new(points, &logs);
    let mut scratch = [0u8; LONGEST_MEMBER];
    rebuild_missing(members, marks, &mut scratch[..len], &lagrange);
}

// Rebuilds every missing member of a segment from the first m present ones, and marks all members present. Where it refuses, nothing is written.
pub fn rebuild(members: &mut [u8], marks: &mut [u8], m: u32) -> Result<(), Refusal>
    ensures { ending (number result) members.new marks.new ≡ rebuild_segment m members.old marks.old }
{
    let m = m as usize;
    if !sizes_fit(m, marks.len(), members.len()) || !marks::marks_fit(marks) {
        return Err(Refusal::BadArgument);
    }
    let points = Points::first_present(marks, m).ok_or(Refusal::BeyondRecovery)?;
    rebuild_from(members, marks, &points);
    Ok(())
}

// Lists of keys within a store.
ghost use Rattle.std.specs.Prelude.{◌≤◌};
ghost use Rattle.buffer.specs.Strided.{Within};
ghost use Rattle.soundness.specs.Keys.{Octets};

// One key every `step` bytes, from `at` on, for each of so many ranks.
#[derive(Clone, Copy)]
pub struct KeyList<'a> {
    pub bytes: &'a [u8],
    pub at: usize,
    pub step: usize,
    pub ranks: usize,
    ghost octets: { Octets bytes.now },
    ghost within: { Within bytes.now at step ranks },
    ghost forward: { 1 ≤ step },
    ghost narrow: { step ≤ 64 },
}

// What the soundness test hands on, so that no call looks for it again.
ghost use Rattle.std.specs.Prelude.{true};
ghost use Rattle.soundness.specs.Survey.{Surveyed};

// What the test learns of a sound store: how many keys are listed for each data unit, and for each group the first check unit in service and how many
// units are out.
#[derive(Clone, Copy)]
pub struct Survey<'a> {
    pub store: &'a [u8],
    pub fills: [u8; 16],
    pub first_checks: [u8; 4],
    pub outs: [u8; 4],
    ghost surveyed: { Surveyed store.now true fills first_checks outs },
}

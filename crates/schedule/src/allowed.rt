ghost use Rattle.schedule.specs.Verdict.{WithinLimits};

use super::sizes::Sizes;

// All six sizes of a plan, each within its limits. That a router is one of this mesh stays a `requires` of the methods: a number that
// knows it would have to carry the sizes.
#[derive(Clone, Copy)]
pub(crate) struct AllowedSizes {
    pub(crate) sizes: Sizes,
    pub(crate) period: u8,
    ghost limits: { WithinLimits sizes period },
}

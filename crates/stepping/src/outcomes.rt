// Lists of outcomes.
ghost use Rattle.std.specs.Prelude.{◌≡◌, false};
ghost use Rattle.calculus.specs.Fullness.{overflowing};
ghost use Rattle.stepping.specs.Listed.{outcomes_of};

use crate::outcome::Outcome;

// Outcomes of a part, few and small enough not to overflow.
#[derive(Drop)]
pub(crate) struct Outcomes {
    pub(crate) items: Vec<Outcome>,
    ghost fits: { overflowing (outcomes_of items.items) ≡ false },
}

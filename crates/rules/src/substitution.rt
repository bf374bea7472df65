// Numbers for some of the variables.
ghost use Rattle.std.specs.Prelude.{◌≡◌, Decides};

use crate::by_var::ByVar;

// A number for each variable that has one.
pub type Substitution = ByVar<Option<u32>>;

// Whether two give the same numbers to the same variables. This states what the derived `==` decides; callers compare by `==`.
#[tactic(auto, using(crate::proofs::Equal::decided))]
pub fn same(a: &Substitution, b: &Substitution) -> bool
    ensures { Decides result (a.now ≡ b.now) }
{
    a == b
}

// The held states.
ghost use Rattle.std.specs.Prelude.{◌≡◌, List, [], ◌∷◌, IfOk};
ghost use Rattle.calculus.specs.Graphs.{graph_of};
ghost use Rattle.calculus.specs.Runs.{any_ends};
ghost use Rattle.calculus.specs.Steps.{start};
ghost use Rattle.stepping.specs.Holding.{Follows};
ghost use Rattle.stepping.specs.Listed.{states as states_of};

use crate::fault::StepFault;
use crate::holding::Held;
use crate::step::Step;
use checking::rule::Rule;
use events::meaning::Meaning;
use states::ending::may_end;
use states::substitution::NO_NUMBERS;
use states::tree::Tree;
use std::alloc::{AllocError, Global};

// What is held before any event: the start.
pub fn first(heap: Global) -> Result<Vec<Tree>, AllocError>
    ensures { IfOk result (λ held. states_of held.items ≡ start ∷ []) }
{
    Ok(vec![in heap; Tree::Leaf(0, NO_NUMBERS)]?)
}

// Whether one of the held states may end.
pub fn any_ends(rule: &Rule, held: &[Tree]) -> bool
    ensures { result ≡ any_ends (graph_of rule.now) (states_of held.now) }
{
    held.iter().any(|t| may_end(rule, t))
}

// The states to hold after an event: each that a held state steps to, once.
pub fn after(
    heap: Global,
    rule: &Rule,
    event: &Meaning,
    held: &[Tree],
) -> Result<Vec<Tree>, StepFault>
    ensures { Follows (graph_of rule.now) event.now (states_of held.now) result }
{
    let step = Step { heap, rule, event };
    let mut next = Held::new(heap);
    for t in held {
        let outcomes = step.part(t)?;
        next.hold_all(outcomes)?;
    }
    Ok(next.states)
}

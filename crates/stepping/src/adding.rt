// Adding outcomes to a list, each once. A list that is added is used up, so that its outcomes move.
ghost use Rattle.std.specs.Prelude.{◌≡◌, List, [], ◌∷◌, map};
ghost use Rattle.calculus.specs.Lists.{gather};
ghost use Rattle.calculus.specs.Steps.{Outcome as Out};
ghost use Rattle.stepping.specs.Adding.{AddsOutcomes, Collects, Extends, Makes, outcomes_in};
ghost use Rattle.stepping.specs.Listed.{outcome_of, outcomes_of};
ghost use Rattle.stepping.specs.Wrapping.{with_each};

use crate::fault::StepFault;
use crate::outcome::Outcome;
use crate::outcomes::Outcomes;
use states::size::remaining;
use states::substitution::compatible;
use std::alloc::{AllocError, Global};

// The most outcomes of a part.
const MOST_OUTCOMES: usize = 16;

// The most cells of a state.
const MOST_CELLS: usize = 64;

impl Outcomes {
    // The list of none.
    pub(crate) fn new(heap: Global) -> Outcomes
        ensures { outcomes_in result ≡ [] }
    {
        Outcomes {
            items: Vec::new(heap),
        }
    }

    // The list of one.
    pub(crate) fn single(heap: Global, o: Outcome) -> Result<Outcomes, StepFault>
        ensures { Collects (outcome_of o ∷ []) result }
    {
        let mut outcomes = Outcomes::new(heap);
        outcomes.add(o)?;
        Ok(outcomes)
    }

    // Adds an outcome, unless it is there.
    fn add(&mut self, o: Outcome) -> Result<(), StepFault>
        ensures { AddsOutcomes (outcomes_in self.old) (outcome_of o ∷ []) (outcomes_in self.new) result }
    {
        if self.items.contains(&o) {
            return Ok(());
        }
        if remaining(&o.tree, MOST_CELLS).is_none() || self.items.len() >= MOST_OUTCOMES {
            return Err(StepFault::Full);
        }
        self.items.push(o)?;
        Ok(())
    }

    // With what each of some outcomes is made into.
    pub(crate) fn with_each<F: Fn(Outcome) -> Result<Outcome, AllocError>>(
        mut self,
        outcomes: Outcomes,
        make: F,
    ) -> Result<Outcomes, StepFault>
        requires { F.IsAlwaysCallable make }
        ensures { (g : Out → Out) → Makes (F.post make) g → Extends (outcomes_in self) (map g (outcomes_in outcomes)) result }
    {
        for o in outcomes.items {
            self.add(make(o)?)?;
        }
        Ok(self)
    }

    // With each two outcomes whose bindings agree, together.
    pub(crate) fn with_pairs(
        mut self,
        heap: Global,
        ls: &[Outcome],
        rs: &[Outcome],
    ) -> Result<Outcomes, StepFault>
        ensures { Extends (outcomes_in self) (gather (with_each (outcomes_of rs.now)) (outcomes_of ls.now)) result }
    {
        for l in ls {
            for r in rs {
                if !compatible(l.binding, r.binding) {
                    continue;
                }
                self.add(l.together(heap, r)?)?;
            }
        }
        Ok(self)
    }
}

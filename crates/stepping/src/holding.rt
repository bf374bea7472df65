// The states to hold, each once.
ghost use Rattle.std.specs.Prelude.{◌≡◌, false, List, [], ◌∷◌};
ghost use Rattle.calculus.specs.Lists.{gather};
ghost use Rattle.states.specs.State.{state};
ghost use Rattle.stepping.specs.Adding.{outcomes_in};
ghost use Rattle.stepping.specs.Holding.{AddsStates, state_of, too_many};
ghost use Rattle.stepping.specs.Listed.{states as states_of};

use crate::fault::StepFault;
use crate::outcome::Outcome;
use crate::outcomes::Outcomes;
use states::tree::Tree;
use std::alloc::Global;

// The most states that are held.
const MOST_HELD: usize = 16;

// States to hold, not too many.
#[derive(Drop)]
pub(crate) struct Held {
    pub(crate) states: Vec<Tree>,
    ghost few: { too_many (states_of states.items) ≡ false },
}

impl Held {
    pub(crate) fn new(heap: Global) -> Held
        ensures { states_of result.states.items ≡ [] }
    {
        Held {
            states: Vec::new(heap),
        }
    }

    // Holds a state, unless it is held. `Outcomes::add` tests the size of a state too: a trait with the laws of both limits would be longer
    // than the two, and no plainer.
    fn hold(&mut self, t: Tree) -> Result<(), StepFault>
        ensures { AddsStates (states_of self.old.states.items) (state t ∷ []) (states_of self.new.states.items) result }
    {
        if self.states.contains(&t) {
            return Ok(());
        }
        if self.states.len() >= MOST_HELD {
            return Err(StepFault::Full);
        }
        self.states.push(t)?;
        Ok(())
    }

    // Holds the states of outcomes, without their bindings, since no binder stands above a whole state.
    pub(crate) fn hold_all(&mut self, outcomes: Outcomes) -> Result<(), StepFault>
        ensures { AddsStates (states_of self.old.states.items) (gather state_of (outcomes_in outcomes)) (states_of self.new.states.items) result }
    {
        for o in outcomes.items {
            let Outcome { tree, binding: _ } = o;
            self.hold(tree)?;
        }
        Ok(())
    }
}

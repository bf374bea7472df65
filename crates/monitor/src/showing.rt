// Beginning a monitor, and showing it events.
ghost use Rattle.std.specs.Prelude.{◌≡◌, ◌<◌, IfOk};
ghost use Rattle.calculus.specs.Matching.{Proper};
ghost use Rattle.calculus.specs.Graphs.{graph_of};
ghost use Rattle.calculus.specs.Runs.{move};
ghost use Rattle.monitor.specs.Uses.{shows, run_of, Begins, Shows, GoesOn};
ghost use Rattle.stepping.specs.Holding.{Follows};
ghost use Rattle.stepping.specs.Listed.{states};

use crate::fault::ShowFault;
use crate::{MOST_SHOWN, Monitor};
use checking::rule::Rule;
use events::event::Event;
use events::meaning::Meaning;
use events::noting::noted;
use states::tree::Tree;
use std::alloc::{AllocError, Global};
use stepping::fault::StepFault;
use stepping::held::{after, first};

impl Monitor {
    // Begins on a copy of the rule: the start is held, and nothing was shown.
    pub fn begin(heap: Global, rule: &Rule) -> Result<Monitor, AllocError>
        ensures { IfOk result (λ m. Begins rule.now m) }
    {
        let held = first(heap)?;
        Ok(Monitor {
            rule: *rule,
            held,
            shown: 0,
            taken: 0,
        })
    }

    // Shows an event of any kind: it is queried once for each type and slot, and the states step at the answers. A refusal leaves
    // the monitor as it was; at the limit the event is not even queried.
    pub fn show<E: Event>(&mut self, heap: Global, event: &E) -> Result<(), ShowFault>
        ensures shows { Shows (E.meaning event.now) self.old self.new result }
        ensures uses { GoesOn self.old (shows (E.meaning event.now) result) self.new }
    {
        if self.shown >= MOST_SHOWN {
            return Err(ShowFault::Limit);
        }
        let answers = asked(event);
        let next = self.next(heap, &answers)?;
        self.hold(next);
        Ok(())
    }

    // The states to hold after an event.
    fn next(&self, heap: Global, event: &Meaning) -> Result<Vec<Tree>, StepFault>
        ensures { Follows (graph_of self.now.rule) event.now (run_of self.now).states result }
    {
        after(heap, &self.rule, event, &self.held)
    }

    // Counts an event and holds the states after it; where there are none, it was not taken.
    fn hold(&mut self, next: Vec<Tree>)
        requires { self.old.shown < MOST_SHOWN }
        ensures rule { self.new.rule ≡ self.old.rule }
        ensures run { run_of self.new ≡ move (states next.items) (run_of self.old) }
    {
        self.shown += 1;
        if !next.is_empty() {
            self.taken += 1;
        }
        self.held = next;
    }
}

// What an event of any kind answers: its meaning.
fn asked<E: Event>(event: &E) -> Meaning
    ensures same { result ≡ E.meaning event.now }
    ensures proper { Proper result }
{
    noted(event)
}

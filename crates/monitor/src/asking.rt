// The two questions, each of which answers for every use of the monitor; and a look at the states that it holds.
ghost use Rattle.std.specs.Prelude.{◌≡◌, List};
ghost use Rattle.monitor.specs.Uses.{Call, asks_counts, asks_verdict, counts_of, verdict_of, run_of, Use, GoesOn, events_in, Counted, Judged};
ghost use Rattle.stepping.specs.Listed.{states};

use crate::{Counts, Monitor};
use calculus::verdict::Verdict;
use states::tree::Tree;
use stepping::held::any_ends;

impl Monitor {
    // How many events were shown, and how many of them were taken.
    pub fn counts(&self) -> Counts
        ensures answer { result ≡ counts_of self.now }
        ensures uses { GoesOn self.now (asks_counts result) self.now }
        ensures says { (cs : List Call) → Use self.now cs → Counted self.now.rule (events_in cs) result }
    {
        Counts {
            shown: self.shown,
            taken: self.taken,
        }
    }

    // Broken where the counts differ; otherwise whether the events shown may end here.
    pub fn verdict(&self) -> Verdict
        ensures answer { result ≡ verdict_of self.now }
        ensures uses { GoesOn self.now (asks_verdict result) self.now }
        ensures says { (cs : List Call) → Use self.now cs → Judged self.now.rule (events_in cs) result }
    {
        if self.shown != self.taken {
            return Verdict::Broken;
        }
        if any_ends(&self.rule, &self.held) {
            Verdict::MayEnd
        } else {
            Verdict::Open
        }
    }

    // The states that are held.
    pub fn held(&self) -> &[Tree]
        ensures { states result.now ≡ (run_of self.now).states }
    {
        self.held.as_slice()
    }
}

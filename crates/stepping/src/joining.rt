// The outcomes of a state from those of its parts, each once.
ghost use Rattle.std.specs.Prelude.{◌≡◌, true, List, [], ◌∷◌, ◌++◌};
ghost use Rattle.calculus.specs.Graphs.{graph_of};
ghost use Rattle.calculus.specs.Lists.{gather};
ghost use Rattle.calculus.specs.Outcomes.{paired};
ghost use Rattle.states.specs.State.{state};
ghost use Rattle.stepping.specs.Adding.{Collects, outcomes_in};
ghost use Rattle.stepping.specs.Wrapping.{outcomes_under_binder, outcomes_under_filter};

use crate::fault::StepFault;
use crate::outcomes::Outcomes;
use checking::rule::Rule;
use rules::node::{Op, Var};
use states::tree::Tree;
use std::alloc::Global;

// The outcomes of a pair, from those of its visited sides; a side that is not visited gives none.
pub(crate) fn pair_outcomes(
    heap: Global,
    op: Op,
    left: &Tree,
    right: &Tree,
    ls: Outcomes,
    rs: Outcomes,
) -> Result<Outcomes, StepFault>
    ensures { Collects (paired op (state left.now) (state right.now) true (outcomes_in ls) (outcomes_in rs)) result }
{
    let none = Outcomes::new(heap);
    match op {
        Op::Or => none.with_each(ls, |l| Ok(l))?.with_each(rs, |r| Ok(r)),
        Op::And => none.with_pairs(heap, &ls.items, &rs.items),
        Op::Concat => none
            .with_each(ls, |l| l.on_left(heap, Op::Concat, right))?
            .with_each(rs, |r| Ok(r)),
        Op::Shuffle => none
            .with_each(ls, |l| l.on_left(heap, Op::Shuffle, right))?
            .with_each(rs, |r| r.on_right(heap, Op::Shuffle, left)),
    }
}

// The outcomes of a binder state, from those below it.
pub(crate) fn binder_outcomes(
    heap: Global,
    rule: &Rule,
    v: Var,
    ps: Outcomes,
) -> Result<Outcomes, StepFault>
    ensures { Collects (gather (outcomes_under_binder (graph_of rule.now) v) (outcomes_in ps)) result }
{
    Outcomes::new(heap).with_each(ps, |p| p.released(heap, rule, v))
}

// The outcomes of a filter state that the event passes, from those below it.
pub(crate) fn filter_outcomes(heap: Global, n: u8, ps: Outcomes) -> Result<Outcomes, StepFault>
    ensures { Collects (gather (outcomes_under_filter n) (outcomes_in ps)) result }
{
    Outcomes::new(heap).with_each(ps, |p| p.filtered(heap, n))
}

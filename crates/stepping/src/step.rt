// The two step functions, which call each other.
ghost use Rattle.std.specs.Prelude.{◌≡◌, List, [], ◌∷◌};
ghost use Rattle.calculus.specs.Graphs.{graph_of};
ghost use Rattle.calculus.specs.Numbers.{no_numbers};
ghost use Rattle.calculus.specs.States.{leaf as leaf_of, may_end};
ghost use Rattle.calculus.specs.Visited.{visits_second};
ghost use Rattle.states.specs.State.{state};
ghost use Rattle.stepping.specs.Adding.{Collects};
ghost use Rattle.stepping.specs.Stepping.{Stepped};

use crate::fault::StepFault;
use crate::joining::{binder_outcomes, filter_outcomes, pair_outcomes};
use crate::outcome::Outcome;
use crate::outcomes::Outcomes;
use checking::rule::Rule;
use events::meaning::Meaning;
use rules::node::{Node, Op};
use rules::substitution::Substitution;
use states::ending::may_end;
use states::matching::{bind, passes};
use states::substitution::{NO_NUMBERS, without};
use states::tree::Tree;
use std::alloc::Global;

// Whether the second side of a pair is visited: that of a concatenation only where the first may end.
fn visits_second(rule: &Rule, op: Op, left: &Tree) -> bool
    ensures { result ≡ visits_second op (may_end (graph_of rule.now) (state left.now)) }
{
    match op {
        Op::Concat => may_end(rule, left),
        Op::Or | Op::And | Op::Shuffle => true,
    }
}

// The outcome of a filter that the event does not pass: it stays, and nothing is bound.
fn stays(heap: Global, tree: Tree) -> Result<Outcomes, StepFault>
    ensures { Collects ((state tree, no_numbers) ∷ []) result }
{
    Outcomes::single(
        heap,
        Outcome {
            tree,
            binding: NO_NUMBERS,
        },
    )
}

// A step of a rule at an event.
#[derive(Clone, Copy)]
pub(crate) struct Step<'a> {
    pub(crate) heap: Global,
    pub(crate) rule: &'a Rule,
    pub(crate) event: &'a Meaning,
}

impl Step<'_> {
    // The outcomes of a part of a state.
    #[cycle(step)]
    pub(crate) fn part(&self, t: &Tree) -> Result<Outcomes, StepFault>
        ensures { Stepped self.now.rule.now self.now.event.now (state t.now) result }
    {
        match t {
            Tree::Leaf(n, numbers) => self.node(*n, *numbers),
            Tree::Pair(op, left, right) => {
                let left: &Tree = left;
                let right: &Tree = right;
                let ls = self.part(left)?;
                if !visits_second(self.rule, *op, left) {
                    return pair_outcomes(self.heap, *op, left, right, ls, Outcomes::new(self.heap));
                }
                let rs = self.part(right)?;
                pair_outcomes(self.heap, *op, left, right, ls, rs)
            }
            Tree::Binder(v, below) => {
                let ps = self.part(below)?;
                binder_outcomes(self.heap, self.rule, *v, ps)
            }
            Tree::Filter(n, below) => {
                if !passes(self.rule, *n, self.event) {
                    return stays(self.heap, t.clone()?);
                }
                let ps = self.part(below)?;
                filter_outcomes(self.heap, *n, ps)
            }
        }
    }

    // The outcomes of a rule's node, under the settled numbers.
    #[cycle(step)]
    fn node(&self, n: u8, numbers: Substitution) -> Result<Outcomes, StepFault>
        ensures { Stepped self.now.rule.now self.now.event.now (leaf_of n numbers) result }
    {
        match self.rule.node(n) {
            Node::Empty => Ok(Outcomes::new(self.heap)),
            Node::Prefix(p, tail) => match bind(numbers, p, self.event) {
                Some(binding) => {
                    let tree = Tree::child(self.rule, tail, numbers);
                    Outcomes::single(self.heap, Outcome { tree, binding })
                }
                None => Ok(Outcomes::new(self.heap)),
            },
            Node::Pair(op, a, b) => {
                let left = Tree::child(self.rule, a, numbers);
                let right = Tree::child(self.rule, b, numbers);
                let t = Tree::pair(self.heap, op, left, right)?;
                self.owned(t)
            }
            Node::Binder(v, c) => {
                let below = Tree::child(self.rule, c, without(numbers, v));
                let t = Tree::binder(self.heap, v, below)?;
                self.owned(t)
            }
            Node::Filter(_, c) => {
                if !passes(self.rule, n, self.event) {
                    return stays(self.heap, Tree::Leaf(n, numbers));
                }
                let t = Tree::child(self.rule, c, numbers);
                let ps = self.owned(t)?;
                filter_outcomes(self.heap, n, ps)
            }
        }
    }

    // The outcomes of a tree that is freed then.
    #[cycle(step)]
    fn owned(&self, t: Tree) -> Result<Outcomes, StepFault>
        ensures { Stepped self.now.rule.now self.now.event.now (state t) result }
    {
        self.part(&t)
    }
}

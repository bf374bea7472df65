// One outcome of a part, and what becomes of it in what the part stands in. The outcome moves into its box; only the side that
// remains is copied.
ghost use Rattle.std.specs.Prelude.{◌≡◌, IfOk};
ghost use Rattle.calculus.specs.Graphs.{graph_of};
ghost use Rattle.calculus.specs.Numbers.{lookup as lookup_of, union as union_of};
ghost use Rattle.calculus.specs.Outcomes.{released as released_of};
ghost use Rattle.calculus.specs.States.{pair as pair_of, filter as filter_of};
ghost use Rattle.states.specs.State.{state};
ghost use Rattle.stepping.specs.Listed.{outcome_of};

use checking::rule::Rule;
use rules::node::{Op, Var};
use rules::substitution::Substitution;
use states::settling::settle;
use states::substitution::{lookup, union, without};
use states::tree::Tree;
use std::alloc::{AllocError, Global};

// A state, and the numbers that the event gave to variables.
#[derive(PartialEq, Drop)]
pub(crate) struct Outcome {
    pub(crate) tree: Tree,
    pub(crate) binding: Substitution,
}

impl Outcome {
    // The left side has stepped, and the right one remains. Inlined, since it runs at each pair above a leaf that steps.
    #[inline(always)]
    pub(crate) fn on_left(self, heap: Global, op: Op, right: &Tree) -> Result<Outcome, AllocError>
        ensures { IfOk result (λ o. outcome_of o ≡ (pair_of op (state self.tree) (state right.now), self.binding)) }
    {
        let Outcome { tree, binding } = self;
        let tree = Tree::pair(heap, op, tree, right.clone()?)?;
        Ok(Outcome { tree, binding })
    }

    // The right side has stepped, and the left one remains. Inlined as well.
    #[inline(always)]
    pub(crate) fn on_right(self, heap: Global, op: Op, left: &Tree) -> Result<Outcome, AllocError>
        ensures { IfOk result (λ o. outcome_of o ≡ (pair_of op (state left.now) (state self.tree), self.binding)) }
    {
        let Outcome { tree, binding } = self;
        let tree = Tree::pair(heap, op, left.clone()?, tree)?;
        Ok(Outcome { tree, binding })
    }

    // Both sides have stepped. Each outcome may meet several of the other side, so both are copied.
    pub(crate) fn together(&self, heap: Global, right: &Outcome) -> Result<Outcome, AllocError>
        ensures { IfOk result (λ o. outcome_of o ≡ (pair_of Op.And (state self.now.tree) (state right.now.tree), union_of self.now.binding right.now.binding)) }
    {
        let tree = Tree::pair(heap, Op::And, self.tree.clone()?, right.tree.clone()?)?;
        Ok(Outcome {
            tree,
            binding: union(self.binding, right.binding),
        })
    }

    // Below a binder state: the variable is settled where it is bound; otherwise the binder state remains.
    pub(crate) fn released(self, heap: Global, rule: &Rule, v: Var) -> Result<Outcome, AllocError>
        ensures { IfOk result (λ o. outcome_of o ≡ released_of (graph_of rule.now) v (lookup_of self.binding v) (outcome_of self)) }
    {
        let Outcome { mut tree, binding } = self;
        match lookup(binding, v) {
            Some(k) => {
                settle(rule, &mut tree, v, k);
                Ok(Outcome {
                    tree,
                    binding: without(binding, v),
                })
            }
            None => Ok(Outcome {
                tree: Tree::binder(heap, v, tree)?,
                binding,
            }),
        }
    }

    // Below a filter state, which remains.
    pub(crate) fn filtered(self, heap: Global, n: u8) -> Result<Outcome, AllocError>
        ensures { IfOk result (λ o. outcome_of o ≡ (filter_of n (state self.tree), self.binding)) }
    {
        let Outcome { tree, binding } = self;
        Ok(Outcome {
            tree: Tree::filter(heap, n, tree)?,
            binding,
        })
    }
}

// The tree in memory.
ghost use Rattle.std.specs.Prelude.{◌≡◌, IfOk};
ghost use Rattle.calculus.specs.Graphs.{graph_of};
ghost use Rattle.calculus.specs.States.{child as child_of, pair as pair_of, binder as binder_of, filter as filter_of};
ghost use Rattle.states.specs.State.{state};

use crate::substitution::restrict;
use checking::rule::Rule;
use rules::node::{Op, Var};
use rules::substitution::Substitution;
use std::alloc::{AllocError, Global};

// A state: a leaf is a node with settled numbers; a pair, a binder state (a variable) and a filter state (a node) stand
// over states.
// An enum can have no model yet, so contracts say `state`.
#[derive(PartialEq, Drop)]
pub enum Tree {
    Leaf(u8, Substitution),
    Pair(Op, Box<Tree>, Box<Tree>),
    Binder(Var, Box<Tree>),
    Filter(u8, Box<Tree>),
}

impl Tree {
    // The leaf of a node, with those of the numbers that are free there.
    pub fn child(rule: &Rule, n: u8, numbers: Substitution) -> Tree
        ensures { state result ≡ child_of (graph_of rule.now) n numbers }
    {
        Tree::Leaf(n, restrict(numbers, rule, n))
    }

    // The pair over two states.
    pub fn pair(heap: Global, op: Op, left: Tree, right: Tree) -> Result<Tree, AllocError>
        ensures { IfOk result (λ t. state t ≡ pair_of op (state left) (state right)) }
    {
        Ok(Tree::Pair(op, Box::new(heap, left)?, Box::new(heap, right)?))
    }

    // The binder state over a state.
    pub fn binder(heap: Global, v: Var, below: Tree) -> Result<Tree, AllocError>
        ensures { IfOk result (λ t. state t ≡ binder_of v (state below)) }
    {
        Ok(Tree::Binder(v, Box::new(heap, below)?))
    }

    // The filter state over a state.
    pub fn filter(heap: Global, n: u8, below: Tree) -> Result<Tree, AllocError>
        ensures { IfOk result (λ t. state t ≡ filter_of n (state below)) }
    {
        Ok(Tree::Filter(n, Box::new(heap, below)?))
    }
}

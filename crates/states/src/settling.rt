// Settling a variable in a tree.
ghost use Rattle.std.specs.Prelude.{◌≡◌};
ghost use Rattle.calculus.specs.Graphs.{graph_of};
ghost use Rattle.calculus.specs.Numbers.{lookup as lookup_of};
ghost use Rattle.calculus.specs.States.{settle_leaf, settle as settle_in};
ghost use Rattle.states.specs.State.{state};

use crate::substitution::{assign, lookup};
use crate::tree::Tree;
use checking::rule::Rule;
use rules::node::Var;
use rules::substitution::Substitution;

// The numbers of a leaf: the variable gets its number where it is free and has none yet.
fn settle_leaf(rule: &Rule, n: u8, numbers: Substitution, v: Var, k: u32) -> Substitution
    ensures { result ≡ settle_leaf ((graph_of rule.now).free n v) (lookup_of numbers v) v k numbers }
{
    if rule.is_free(v, n) && lookup(numbers, v).is_none() {
        assign(numbers, v, k)
    } else {
        numbers
    }
}

// Settles the variable in every leaf, except under a binder state for it.
pub fn settle(rule: &Rule, tree: &mut Tree, v: Var, k: u32)
    ensures { state tree.new ≡ settle_in (graph_of rule.now) v k (state tree.old) }
{
    match tree {
        Tree::Leaf(n, numbers) => {
            *numbers = settle_leaf(rule, *n, *numbers, v, k);
        }
        Tree::Pair(_, left, right) => {
            settle(rule, left, v, k);
            settle(rule, right, v, k);
        }
        Tree::Binder(w, below) => {
            if v != *w {
                settle(rule, below, v, k);
            }
        }
        Tree::Filter(_, below) => settle(rule, below, v, k),
    }
}

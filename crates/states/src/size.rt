// The size of a tree, counted to a limit and no further.
ghost use Rattle.std.specs.Prelude.{◌≡◌, ◌-◌, ◌≤◌};
ghost use Rattle.calculus.specs.States.{cells};
ghost use Rattle.states.specs.State.{state};
ghost use Rattle.std.specs.Option.{SomeIff};

use crate::tree::Tree;

// What the tree's cells leave of a limit; none where they are over it.
pub fn remaining(tree: &Tree, limit: usize) -> Option<usize>
    ensures { SomeIff result (cells (state tree.now) ≤ limit) (limit - cells (state tree.now)) }
{
    // Not `checked_sub` and `?`, which cost 3 million instructions on 182 million for a play of 12 cards.
    if limit == 0 {
        return None;
    }
    match tree {
        Tree::Leaf(_, _) => Some(limit - 1),
        Tree::Pair(_, left, right) => remaining(right, remaining(left, limit - 1)?),
        Tree::Binder(_, below) | Tree::Filter(_, below) => remaining(below, limit - 1),
    }
}

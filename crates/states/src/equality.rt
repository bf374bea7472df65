// What `==` says of trees.
ghost use Rattle.std.specs.Prelude.{◌≡◌, Decides};
ghost use Rattle.states.specs.State.{state};

use crate::tree::Tree;

// Whether two trees are the same state. This states what the derived `==` decides; callers compare trees by `==`.
pub fn same(a: &Tree, b: &Tree) -> bool
    ensures { Decides result (state a.now ≡ state b.now) }
{
    a == b
}

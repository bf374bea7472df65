// Copies of a tree.
ghost use Rattle.std.specs.Prelude.{◌≡◌, IfOk};
ghost use Rattle.states.specs.State.{state};

use crate::tree::Tree;
use std::alloc::AllocError;

// By hand, since a derived clone of a type that leads back to itself says nothing of what it gives.
impl Clone for Tree {
    ghost is_clone = { λ t u. state u ≡ state t };

    // A tree of the same state; there is none only for want of memory.
    fn clone(&self) -> Result<Tree, AllocError>
        ensures { IfOk result (λ t. state t ≡ state self.now) }
    {
        match self {
            Tree::Leaf(n, numbers) => Ok(Tree::Leaf(*n, *numbers)),
            Tree::Pair(op, left, right) => {
                let heap = *Box::allocator(left);
                Tree::pair(heap, *op, (**left).clone()?, (**right).clone()?)
            }
            Tree::Binder(v, below) => {
                Tree::binder(*Box::allocator(below), *v, (**below).clone()?)
            }
            Tree::Filter(n, below) => {
                Tree::filter(*Box::allocator(below), *n, (**below).clone()?)
            }
        }
    }
}

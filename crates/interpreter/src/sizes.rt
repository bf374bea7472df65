// How large states are.
ghost use Rattle.std.specs.Prelude.{◌≡◌, IfOk};
ghost use Rattle.states.specs.State.{state};
ghost use Rattle.stepping.specs.Listed.{states};
ghost use Rattle.interpreter.specs.Sizes.{size_of, sizes_of, Ordered};

use states::size::remaining;
use states::tree::Tree;
use std::alloc::{AllocError, Global};

// How many cells a state has.
fn size(tree: &Tree) -> usize
    ensures { result ≡ size_of (state tree.now) }
{
    usize::MAX - remaining(tree, usize::MAX).unwrap_or(0)
}

// How many cells each of some states has, in their order.
fn sizes_of(heap: Global, trees: &[Tree]) -> Result<Vec<usize>, AllocError>
    ensures { IfOk result (λ v. v.items ≡ sizes_of (states trees.now)) }
{
    trees.iter().map(size).collect(heap)
}

// The same in rising order.
pub(crate) fn rising_sizes(heap: Global, trees: &[Tree]) -> Result<Vec<usize>, AllocError>
    ensures { IfOk result (λ v. Ordered (sizes_of (states trees.now)) v.items) }
{
    let mut sizes = sizes_of(heap, trees)?;
    sizes.sort_unstable();
    Ok(sizes)
}

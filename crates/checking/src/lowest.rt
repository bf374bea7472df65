// Searching among the nodes.
ghost use Rattle.std.specs.Prelude.{◌≡◌, ℕ, Bool, ◌<◌};
ghost use Rattle.checking.specs.Answer.{first};

use rules::record::MOST_NODES;

// The lowest node that passes a test, if one does. A loop, since `find` over the numbers asks that the test take any number, and tests
// here index rows: what was left to show is that it is called below 128 alone.
pub(crate) fn lowest<F: Fn(u8) -> bool>(test: F) -> Option<u8>
    requires { (n : ℕ) → n < 128 → F.pre test n }
    ensures { (f : ℕ → Bool) → ((n : ℕ) (b : Bool) → n < 128 → F.post test n b → b ≡ f n) → result ≡ first f 0 128 }
{
    for n in 0..MOST_NODES as u8 {
        if test(n) {
            return Some(n);
        }
    }
    None
}

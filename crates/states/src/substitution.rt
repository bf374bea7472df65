// Numbers for variables, as the calculus has them.
ghost use Rattle.std.specs.Prelude.{◌≡◌};
ghost use Rattle.calculus.specs.Numbers.{lookup as lookup_of, restrict as restrict_to, without as without_of, assign as assign_to, union as union_of, compatible_at, compatible as compatible_with};
ghost use Rattle.calculus.specs.Graphs.{graph_of};

use checking::rule::Rule;
use rules::node::Var;
use rules::substitution::Substitution;

// No variable has a number.
pub const NO_NUMBERS: Substitution = Substitution {
    v0: None,
    v1: None,
    v2: None,
    v3: None,
};

// The number of a variable, if it has one.
pub fn lookup(numbers: Substitution, v: Var) -> Option<u32>
    ensures { result ≡ lookup_of numbers v }
{
    numbers.get(v)
}

// The variable has this number, the others what they had.
pub(crate) fn assign(numbers: Substitution, v: Var, k: u32) -> Substitution
    ensures { result ≡ assign_to v k numbers }
{
    numbers.with(v, Some(k))
}

// All numbers but that of the variable.
pub fn without(numbers: Substitution, v: Var) -> Substitution
    ensures { result ≡ without_of v numbers }
{
    numbers.with(v, None)
}

// Only the numbers of the variables that are free in the node.
pub(crate) fn restrict(numbers: Substitution, rule: &Rule, n: u8) -> Substitution
    ensures { result ≡ restrict_to ((graph_of rule.now).free n) numbers }
{
    Substitution::from_fn(|v| {
        if rule.is_free(v, n) {
            numbers.get(v)
        } else {
            None
        }
    })
}

// The numbers of both.
pub fn union(a: Substitution, b: Substitution) -> Substitution
    ensures { result ≡ union_of a b }
{
    Substitution::from_fn(|v| a.get(v).or(b.get(v)))
}

fn compatible_at(a: Option<u32>, b: Option<u32>) -> bool
    ensures { result ≡ compatible_at a b }
{
    match (a, b) {
        (Some(j), Some(k)) => j == k,
        (Some(_), None) | (None, _) => true,
    }
}

// No variable has two different numbers.
pub fn compatible(a: Substitution, b: Substitution) -> bool
    ensures { result ≡ compatible_with a b }
{
    compatible_at(a.v0, b.v0)
        && compatible_at(a.v1, b.v1)
        && compatible_at(a.v2, b.v2)
        && compatible_at(a.v3, b.v3)
}

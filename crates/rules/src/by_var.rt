// What is kept for each variable.
ghost use Rattle.std.specs.Prelude.{◌≡◌, if◌then◌else◌};
ghost use Rattle.rules.specs.Vars.{same};
ghost use Rattle.rules.specs.declared.node.Var.{Var as V};
ghost use Rattle.rules.specs.ByVar.{at, tabulate};

use crate::node::Var;

// A value for each variable, in four fields: an array would be no plainer, since its definitions would speak of its length.
#[derive(Clone, Copy, PartialEq, Eq)]
pub struct ByVar<T> {
    pub v0: T,
    pub v1: T,
    pub v2: T,
    pub v3: T,
}

impl<T> ByVar<T> {
    // The value of each variable is what the function answers.
    pub fn from_fn<F: Fn(Var) -> T>(f: F) -> ByVar<T>
        requires { F.IsAlwaysCallable f }
        ensures { (v : V) → F.post f v (at result v) }
    {
        ByVar {
            v0: f(Var::V0),
            v1: f(Var::V1),
            v2: f(Var::V2),
            v3: f(Var::V3),
        }
    }
}

impl<T: Copy> ByVar<T> {
    // The same value for each variable.
    pub fn all(value: T) -> ByVar<T>
        ensures { result ≡ tabulate (λ v. value) }
    {
        ByVar {
            v0: value,
            v1: value,
            v2: value,
            v3: value,
        }
    }

    // The value of a variable.
    pub fn get(&self, v: Var) -> T
        ensures { result ≡ at self.now v }
    {
        match v {
            Var::V0 => self.v0,
            Var::V1 => self.v1,
            Var::V2 => self.v2,
            Var::V3 => self.v3,
        }
    }

    // Another value for one variable; the others have what they had.
    pub fn with(self, v: Var, value: T) -> ByVar<T>
        ensures { result ≡ tabulate (λ w. (if same v w then value else at self w)) }
    {
        match v {
            Var::V0 => ByVar { v0: value, ..self },
            Var::V1 => ByVar { v1: value, ..self },
            Var::V2 => ByVar { v2: value, ..self },
            Var::V3 => ByVar { v3: value, ..self },
        }
    }
}

// What a rule is made of.
ghost use Rattle.std.specs.Prelude.{◌≡◌};
ghost use Rattle.rules.specs.Vars.{index_of, numbered};

// A variable of a rule.
#[derive(Clone, Copy, PartialEq, Eq)]
pub enum Var {
    V0,
    V1,
    V2,
    V3,
}

impl Var {
    pub const ALL: [Var; 4] = [Var::V0, Var::V1, Var::V2, Var::V3];
}

// A number that no variable has.
#[derive(Clone, Copy, PartialEq, Eq)]
pub struct UnknownVar(pub u32);

impl From<Var> for u8 {
    ghost from_gives = { λ v n. n ≡ index_of v };

    fn from(v: Var) -> u8 {
        match v {
            Var::V0 => 0,
            Var::V1 => 1,
            Var::V2 => 2,
            Var::V3 => 3,
        }
    }
}

impl TryFrom<u32> for Var {
    type Error = UnknownVar;

    ghost try_from_gives = { λ n v. v ≡ numbered n };

    fn try_from(n: u32) -> Result<Var, UnknownVar> {
        match n {
            0 => Ok(Var::V0),
            1 => Ok(Var::V1),
            2 => Ok(Var::V2),
            3 => Ok(Var::V3),
            _ => Err(UnknownVar(n)),
        }
    }
}

// What a pattern asks of a slot: nothing, this number, or the variable's number. To ask nothing is one of three
// things asked, so an `Option` of two would be no plainer.
#[derive(Clone, Copy)]
pub enum Slot {
    Any,
    Constant(u32),
    Variable(Var),
}

// What an event must be to match: of a type, with slots as asked.
#[derive(Clone, Copy)]
pub struct Pattern {
    pub ty: u8,
    pub player: Slot,
    pub card: Slot,
    pub strokes: Slot,
}

// How a pair joins its two children.
#[derive(Clone, Copy, PartialEq, Eq)]
pub enum Op {
    Or,
    And,
    Concat,
    Shuffle,
}

// A node of a rule; a number is that of a child. No boxes, since a prefix may lead back to where it came from: a rule is a graph.
#[derive(Clone, Copy)]
pub enum Node {
    Empty,
    Prefix(Pattern, u8),
    Pair(Op, u8, u8),
    Binder(Var, u8),
    Filter(Pattern, u8),
}

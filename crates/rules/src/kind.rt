// The kinds of node.
ghost use Rattle.std.specs.Prelude.{◌≡◌};
ghost use Rattle.rules.specs.Kinds.{kind_of};

use crate::node::Op;

// The kind of a node that is not empty.
#[derive(Clone, Copy)]
pub enum Kind {
    Prefix,
    Pair(Op),
    Binder,
    Filter,
}

// A number that no kind has.
#[derive(Clone, Copy)]
pub struct UnknownKind(pub u8);

impl TryFrom<u8> for Kind {
    type Error = UnknownKind;

    ghost try_from_gives = { λ n k. k ≡ kind_of n };

    fn try_from(n: u8) -> Result<Kind, UnknownKind> {
        match n {
            1 => Ok(Kind::Prefix),
            2 => Ok(Kind::Pair(Op::Concat)),
            3 => Ok(Kind::Pair(Op::And)),
            4 => Ok(Kind::Pair(Op::Or)),
            5 => Ok(Kind::Pair(Op::Shuffle)),
            6 => Ok(Kind::Binder),
            7 => Ok(Kind::Filter),
            _ => Err(UnknownKind(n)),
        }
    }
}

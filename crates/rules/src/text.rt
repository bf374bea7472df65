// How the parts of a rule are written out.
ghost use Rattle.std.specs.Prelude.{Some};
ghost use Rattle.rules.specs.Text.{var_text, slot_text, pattern_text, op_text, node_text};

use crate::node::{Node, Op, Pattern, Slot, Var};
use std::fmt;

impl fmt::Display for Var {
    ghost output = { λ v. Some (var_text v) };

    fn fmt<W: fmt::Write>(&self, f: &mut fmt::Formatter<W>) -> fmt::Result {
        let n = u8::from(*self);
        write!(f, "v{n}")
    }
}

impl fmt::Display for Slot {
    ghost output = { λ s. Some (slot_text s) };

    fn fmt<W: fmt::Write>(&self, f: &mut fmt::Formatter<W>) -> fmt::Result {
        match self {
            Slot::Any => f.write_str("any"),
            Slot::Constant(k) => write!(f, "{k}"),
            Slot::Variable(v) => write!(f, "{v}"),
        }
    }
}

impl fmt::Display for Pattern {
    ghost output = { λ p. Some (pattern_text p) };

    fn fmt<W: fmt::Write>(&self, f: &mut fmt::Formatter<W>) -> fmt::Result {
        let ty = self.ty;
        let player = self.player;
        let card = self.card;
        let strokes = self.strokes;
        write!(
            f,
            "type {ty}, player {player}, card {card}, strokes {strokes}"
        )
    }
}

impl fmt::Display for Op {
    ghost output = { λ o. Some (op_text o) };

    fn fmt<W: fmt::Write>(&self, f: &mut fmt::Formatter<W>) -> fmt::Result {
        f.write_str(match self {
            Op::Or => "or",
            Op::And => "and",
            Op::Concat => "concat",
            Op::Shuffle => "shuffle",
        })
    }
}

impl fmt::Display for Node {
    ghost output = { λ n. Some (node_text n) };

    fn fmt<W: fmt::Write>(&self, f: &mut fmt::Formatter<W>) -> fmt::Result {
        match self {
            Node::Empty => f.write_str("empty"),
            Node::Prefix(p, t) => write!(f, "prefix ({p}), then {t}"),
            Node::Pair(o, a, b) => write!(f, "{o} of {a} and {b}"),
            Node::Binder(v, c) => write!(f, "binder {v} over {c}"),
            Node::Filter(p, c) => write!(f, "filter ({p}) over {c}"),
        }
    }
}

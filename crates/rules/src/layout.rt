// Which records the layout allows, and the node that each stands for.
ghost use Rattle.std.specs.Prelude.{◌≡◌};
ghost use Rattle.rules.specs.Layout.{slot_of, pattern_of, is_constant, has_constants, patterned, prefix_of, pair_of, binder_of, filter_of, of_kind, decoded};

use crate::kind::Kind;
use crate::map::{Field, announces};
use crate::node::{Node, Op, Pattern, Slot, Var};
use crate::record::{NodeRecord, SlotField};

// The maps of the kinds; a pattern may have any of the slots besides.
const PATTERN_MAP: u8 = Field::Kind as u8 + Field::First as u8 + Field::Ty as u8;

const PAIR_MAP: u8 = Field::Kind as u8 + Field::First as u8 + Field::Second as u8;

const BINDER_MAP: u8 = Field::Kind as u8 + Field::First as u8 + Field::Variable as u8;

const MOST_TYPE: u8 = 63;

// The flag stands apart from the field, since the caller's records hold both.
fn slot(there: bool, f: SlotField) -> Option<Slot>
    ensures { result ≡ slot_of there f }
{
    if !there {
        return Some(Slot::Any);
    }
    match f.tag {
        0 => Some(Slot::Constant(f.number)),
        1 => Var::try_from(f.number).ok().map(Slot::Variable),
        _ => None,
    }
}

fn pattern(r: &NodeRecord) -> Option<Pattern>
    ensures { result ≡ pattern_of r.now }
{
    if r.ty > MOST_TYPE {
        return None;
    }
    Some(Pattern {
        ty: r.ty,
        player: slot(announces(r.map, Field::Player), r.player)?,
        card: slot(announces(r.map, Field::Card), r.card)?,
        strokes: slot(announces(r.map, Field::Strokes), r.strokes)?,
    })
}

// The pattern of a record that has one, and one child.
fn patterned(r: &NodeRecord, count: u8) -> Option<Pattern>
    ensures { result ≡ patterned count r.now }
{
    if r.map % Field::Player.bit() != PATTERN_MAP || r.first >= count {
        return None;
    }
    pattern(r)
}

fn prefix(r: &NodeRecord, count: u8) -> Option<Node>
    ensures { result ≡ prefix_of count r.now }
{
    Some(Node::Prefix(patterned(r, count)?, r.first))
}

fn is_constant(s: Slot) -> bool
    ensures { result ≡ is_constant s }
{
    !matches!(s, Slot::Variable(_))
}

fn has_constants(p: Pattern) -> bool
    ensures { result ≡ has_constants p }
{
    is_constant(p.player) && is_constant(p.card) && is_constant(p.strokes)
}

fn filter(r: &NodeRecord, count: u8) -> Option<Node>
    ensures { result ≡ filter_of count r.now }
{
    let p = patterned(r, count)?;
    if has_constants(p) {
        Some(Node::Filter(p, r.first))
    } else {
        None
    }
}

fn pair(o: Op, r: &NodeRecord, count: u8) -> Option<Node>
    ensures { result ≡ pair_of o count r.now }
{
    if r.map != PAIR_MAP || r.first >= count || r.second >= count {
        return None;
    }
    Some(Node::Pair(o, r.first, r.second))
}

fn binder(r: &NodeRecord, count: u8) -> Option<Node>
    ensures { result ≡ binder_of count r.now }
{
    if r.map != BINDER_MAP || r.first >= count {
        return None;
    }
    let v = Var::try_from(u32::from(r.variable)).ok()?;
    Some(Node::Binder(v, r.first))
}

// The node of a kind that a record stands for.
fn of_kind(kind: Kind, r: &NodeRecord, count: u8) -> Option<Node>
    ensures { result ≡ of_kind count r.now kind }
{
    match kind {
        Kind::Prefix => prefix(r, count),
        Kind::Pair(o) => pair(o, r, count),
        Kind::Binder => binder(r, count),
        Kind::Filter => filter(r, count),
    }
}

// The node that a record stands for, in a rule of `count` nodes; none where it breaks a line of the layout.
pub fn decode(r: &NodeRecord, count: u8) -> Option<Node>
    ensures { result ≡ decoded count r.now }
{
    if r.map == 0 {
        return Some(Node::Empty);
    }
    of_kind(Kind::try_from(r.kind).ok()?, r, count)
}

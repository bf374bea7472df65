// A node as its bytes lay it out.

// The most nodes that a rule has.
pub const MOST_NODES: usize = 128;

// A slot's five bytes: whether the number is a constant (0) or a variable (1), and the number.
#[derive(Clone, Copy)]
pub struct SlotField {
    pub tag: u8,
    pub number: u32,
}

impl SlotField {
    // What the bytes of a slot are, where they are not there.
    pub(crate) const NONE: SlotField = SlotField { tag: 0, number: 0 };
}

// A node as the bytes lay it out. The bits of the map say which fields are there; another is 0, and counts for nothing. The caller lends
// the records and may write any number, so map, kinds and tags are numbers here: `decode` makes a node of them.
#[derive(Clone, Copy)]
pub struct NodeRecord {
    pub map: u8,
    pub kind: u8,
    pub first: u8,
    pub second: u8,
    pub ty: u8,
    pub variable: u8,
    pub player: SlotField,
    pub card: SlotField,
    pub strokes: SlotField,
}

impl NodeRecord {
    // The record of an empty node, to make a list of before reading fills it.
    pub const BLANK: NodeRecord = NodeRecord {
        map: 0,
        kind: 0,
        first: 0,
        second: 0,
        ty: 0,
        variable: 0,
        player: SlotField::NONE,
        card: SlotField::NONE,
        strokes: SlotField::NONE,
    };
}

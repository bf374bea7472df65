// What every refusal answers: its number, the part of the library that found the fault, and where it lies.
#![tactic(auto)]

ghost use Rattle.std.specs.Prelude.{◌≡◌, ◌+◌, ◌^◌, ◌<◌, length, take, drop, Some};
ghost use Rattle.refusals.specs.Names.{name_of};

use std::fmt;

pub mod message;
pub mod text;

// The part of the library that found a fault.
#[derive(Clone, Copy, Debug, PartialEq, Eq)]
pub enum Layer {
    Reading,
    Checking,
    Record,
    Word,
    Showing,
    Judging,
    Report,
}

impl Layer {
    // The layer's word in answers and in print.
    pub fn name(self) -> &'static str
        ensures { result.now ≡ name_of self }
    {
        match self {
            Layer::Reading => "reading",
            Layer::Checking => "checking",
            Layer::Record => "record",
            Layer::Word => "word",
            Layer::Showing => "showing",
            Layer::Judging => "judging",
            Layer::Report => "report",
        }
    }
}

impl fmt::Display for Layer {
    ghost output = { λ x. Some (name_of x) };

    fn fmt<W: fmt::Write>(&self, f: &mut fmt::Formatter<W>) -> fmt::Result {
        f.write_str(self.name())
    }
}

// A part of some bytes: where it begins, and how long it is.
#[derive(Clone, Copy, Debug, PartialEq, Eq)]
pub struct Span {
    pub at: usize,
    pub len: usize,
}

impl Span {
    // That part of the bytes, cut off where they end.
    pub fn part(self, bytes: &[u8]) -> &[u8]
        ensures part { result.now ≡ take self.len (drop self.at bytes.now) }
        ensures fits { self.at + length result.now < 2 ^ 64 }
    {
        let from = self.at.min(bytes.len());
        let len = self.len.min(bytes.len() - from);
        &bytes[from..from + len]
    }
}

// Where a fault lies: in no place, in a part of the bytes, or in a node. To have no place is an answer of its own, so an `Option` of two
// would be no plainer.
#[derive(Clone, Copy, Debug, PartialEq, Eq)]
pub enum Place {
    Nowhere,
    Bytes(Span),
    Node(u8),
}

// What a refusal answers. Its number is part of the product, so it is no enum.
#[derive(Clone, Copy, Debug, PartialEq, Eq)]
pub struct Refusal {
    pub number: u8,
    pub layer: Layer,
    pub place: Place,
}

// Why bytes are no rule, and what the refusal answers.
ghost use Rattle.std.specs.Prelude.{◌≡◌, Some};
ghost use Rattle.rules.specs.Refusals.{refusal_of, cause_of};

use refusals::{Layer, Place, Refusal, Span};
use std::fmt;

// Why reading refuses some bytes.
#[derive(Clone, Copy)]
pub enum ReadFault {
    // The bytes, of which there are so many, end within the count or a node.
    EndsEarly(usize),
    // The count is not 1 to 128.
    BadCount,
    // The node whose map byte stands here breaks a line of the layout.
    BadLayout(usize),
    // Bytes follow the last node.
    Surplus(Span),
    // The caller's list has fewer records than the rule has nodes.
    ListTooShort,
}

impl From<ReadFault> for Refusal {
    ghost from_gives = { λ fault r. r ≡ refusal_of fault };

    fn from(fault: ReadFault) -> Refusal {
        let (number, place) = match fault {
            ReadFault::EndsEarly(end) => (1, Place::Bytes(Span { at: end, len: 0 })),
            ReadFault::BadCount => (2, Place::Bytes(Span { at: 0, len: 1 })),
            ReadFault::BadLayout(at) => (3, Place::Bytes(Span { at, len: 1 })),
            ReadFault::Surplus(rest) => (4, Place::Bytes(rest)),
            ReadFault::ListTooShort => (21, Place::Nowhere),
        };
        Refusal {
            number,
            layer: Layer::Reading,
            place,
        }
    }
}

impl ReadFault {
    // The cause in plain words, which unlike printing it cannot fail.
    pub fn cause(&self) -> &'static str
        ensures { result.now ≡ cause_of self.now }
    {
        match *self {
            ReadFault::EndsEarly(_) => "the bytes end early",
            ReadFault::BadCount => "the count is not 1 to 128",
            ReadFault::BadLayout(_) => "a node breaks the layout",
            ReadFault::Surplus(_) => "bytes follow the last node",
            ReadFault::ListTooShort => "the list is too short",
        }
    }
}

impl fmt::Display for ReadFault {
    ghost output = { λ fault. Some (cause_of fault) };

    fn fmt<W: fmt::Write>(&self, f: &mut fmt::Formatter<W>) -> fmt::Result {
        f.write_str(self.cause())
    }
}

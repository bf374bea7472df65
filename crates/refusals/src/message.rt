// A refusal in plain words, on one line.
ghost use Rattle.std.specs.Prelude.{Some};
ghost use Rattle.std.specs.Option.{option_map};
ghost use Rattle.refusals.specs.Message.{line_text, place_text, message_text};

use crate::text::Quoted;
use crate::{Place, Refusal};
use std::fmt;

// Where in a log: the number of a line, or 0 where there is none.
#[derive(Clone, Copy)]
struct AtLine(usize);

impl fmt::Display for AtLine {
    ghost output = { λ x. Some (line_text x.0) };

    fn fmt<W: fmt::Write>(&self, f: &mut fmt::Formatter<W>) -> fmt::Result {
        match self.0 {
            0 => Ok(()),
            line => write!(f, "line {line}: "),
        }
    }
}

// The place of a fault, with the bytes that lie there.
#[derive(Clone, Copy)]
struct AtPlace<'a> {
    place: Place,
    part: &'a [u8],
}

impl fmt::Display for AtPlace<'_> {
    ghost output = { λ x. Some (place_text x.place x.part.now) };

    fn fmt<W: fmt::Write>(&self, f: &mut fmt::Formatter<W>) -> fmt::Result {
        match self.place {
            Place::Nowhere => Ok(()),
            Place::Node(node) => write!(f, " at node {node}"),
            Place::Bytes(span) => {
                let bytes = Quoted(self.part);
                let at = span.at;
                write!(f, " {bytes} at byte {at}")
            }
        }
    }
}

// A refusal with its cause and the bytes that lie at its place, and the number of the line in a log (0 where there is none).
#[derive(Clone, Copy)]
pub struct Message<'a, C> {
    pub line: usize,
    pub refusal: Refusal,
    pub cause: C,
    pub part: &'a [u8],
}

impl<C: fmt::Display> fmt::Display for Message<'_, C> {
    ghost output = { λ x. option_map (λ cause. message_text x.line x.refusal cause x.part.now) (C.output x.cause) };

    fn fmt<W: fmt::Write>(&self, f: &mut fmt::Formatter<W>) -> fmt::Result {
        let line = AtLine(self.line);
        let number = self.refusal.number;
        let layer = self.refusal.layer;
        let cause = &self.cause;
        let place = AtPlace {
            place: self.refusal.place,
            part: self.part,
        };
        writeln!(f, "{line}refused {number} {layer}: {cause}{place}")
    }
}

// Cutting bytes that have their place.
ghost use Rattle.std.specs.Prelude.{◌≡◌, length};
ghost use Rattle.std.specs.Option.{option_map};
ghost use Rattle.lines.specs.Pieces.{piece_of, first_piece, other_piece};

use crate::placed::Placed;
use refusals::Span;
use tokens::pieces::cut;

impl<'a> Placed<'a> {
    // What stands before the first separator, and what follows it, if there is one.
    pub(crate) fn cut(self, separator: u8) -> (Placed<'a>, Option<Placed<'a>>)
        ensures first { piece_of result.0 ≡ first_piece separator (piece_of self.entry) }
        ensures rest { option_map piece_of result.1 ≡ other_piece separator (piece_of self.entry) }
    {
        let (first, rest) = cut(self.bytes, separator);
        let at = self.at;
        let first = Placed { bytes: first, at };
        match rest {
            Some(bytes) => {
                let at = at + first.bytes.len() + 1;
                (first, Some(Placed { bytes, at }))
            }
            None => (first, None),
        }
    }

    // The part of the line or of the log that they are.
    pub(crate) fn span(self) -> Span
        ensures { result ≡ record { at = self.entry.at; len = length self.entry.bytes.now } }
    {
        Span {
            at: self.at,
            len: self.bytes.len(),
        }
    }
}

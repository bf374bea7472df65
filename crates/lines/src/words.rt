// The words of a line.
ghost use Rattle.std.specs.Iterator.{YieldsFirstBy, item_count};
ghost use Rattle.lines.specs.Lines.{words_left};
ghost use Rattle.lines.specs.Pieces.{piece_of};

use crate::placed::Placed;

// Words stand between single spaces.
pub(crate) const SPACE: u8 = b' ';

// The words of what is left of a line, if anything is.
#[derive(Drop)]
pub(crate) struct Words<'a>(pub(crate) Option<Placed<'a>>);

impl<'a> Iterator for Words<'a> {
    type Item = Placed<'a>;

    ghost next_gives = { YieldsFirstBy piece_of words_left };

    ghost remaining = { item_count words_left };

    fn next(&mut self) -> Option<Placed<'a>> {
        let (word, rest) = self.0?.cut(SPACE);
        self.0 = rest;
        Some(word)
    }
}

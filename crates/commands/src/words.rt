// Words: what stands between single spaces.
ghost use Rattle.std.specs.Prelude.{◌≡◌, ok_or, List, ℕ};
ghost use Rattle.std.specs.Iterator.{YieldsFirstRef, item_count};
ghost use Rattle.std.specs.Option.{option_map};
ghost use Rattle.commands.specs.Commands.{alone};
ghost use Rattle.commands.specs.Words.{words_in, only_of};
ghost use Rattle.commands.specs.declared.fault.TextFault.TheVariants.{Malformed};

use crate::fault::TextFault;
use std::marker::Model;
use tokens::pieces::cut;

pub(crate) const SPACE: u8 = b' ';

// The words that are still to be read. Those of `lines` carry their places besides, so one type for both would be no plainer.
#[derive(Drop)]
pub(crate) struct Words<'a> {
    // What they are cut from, if one is left.
    rest: Option<&'a [u8]>,
}

impl<'a> Model for Words<'a> {
    ghost Value = { List (List ℕ) };

    ghost view = { λ x. words_in (option_map (λ b. b.now) x.rest) };
}

impl<'a> Words<'a> {
    // The words of what follows a space, if there is one.
    pub fn of(rest: Option<&'a [u8]>) -> Words<'a>
        ensures { result ≡ words_in (option_map (λ b. b.now) rest.entry) }
    {
        Words { rest }
    }

    // The word that is left, if no other is.
    pub fn only(mut self) -> Option<&'a [u8]>
        ensures { option_map (λ b. b.now) result ≡ only_of self.entry }
    {
        let word = self.next()?;
        self.next().is_none().then_some(word)
    }

    // What no word may follow.
    pub fn alone<T: Drop>(mut self, value: T) -> Result<T, TextFault>
        ensures { result ≡ ok_or (alone self.entry value) Malformed }
    {
        match self.next() {
            Some(_) => Err(TextFault::Malformed),
            None => Ok(value),
        }
    }
}

impl<'a> Iterator for Words<'a> {
    type Item = &'a [u8];

    ghost next_gives = { YieldsFirstRef (λ x. x) };

    ghost remaining = { item_count (λ x. x) };

    fn next(&mut self) -> Option<&'a [u8]> {
        let (word, rest) = cut(self.rest?, SPACE);
        self.rest = rest;
        Some(word)
    }
}

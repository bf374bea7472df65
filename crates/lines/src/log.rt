// Logs: lines, each ended by byte 10, which the last may lack.
ghost use Rattle.std.specs.Prelude.{◌≤◌};
ghost use Rattle.std.specs.Option.{ForSome};

use crate::placed::Placed;
use refusals::Span;

mod cutting;

// A line's place in its log, without the byte that ends it, and its number, from 1.
#[derive(Clone, Copy, Debug, PartialEq, Eq)]
pub struct LogLine {
    pub span: Span,
    pub number: usize,
}

// The lines of a log that are still to come: what is left of it, and how many lines have passed.
#[derive(Drop)]
pub struct Lines<'a> {
    rest: Option<Placed<'a>>,
    passed: usize,
    ghost counted: { ForSome rest (λ p. passed ≤ p.at) },
}

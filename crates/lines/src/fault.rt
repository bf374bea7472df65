// Why a line cannot be read. A fault is carried whole from a word to its line and to its log.
ghost use Rattle.std.specs.Prelude.{◌≡◌, Some};
ghost use Rattle.lines.specs.Refusals.{word_refusal, line_refusal, log_refusal, cause_number, cause_text, in_line, in_log};

use refusals::{Layer, Place, Refusal, Span};
use std::fmt;

// What is wrong with a word.
#[derive(Clone, Copy, Debug, PartialEq, Eq)]
pub enum Cause {
    Bad,
    TooLarge,
}

impl Cause {
    // The refusal's number.
    pub fn number(self) -> u8
        ensures { result ≡ cause_number self }
    {
        match self {
            Cause::Bad => 12,
            Cause::TooLarge => 13,
        }
    }

    // What is wrong, in plain words, which unlike printing it cannot fail.
    pub fn words(self) -> &'static str
        ensures { result.now ≡ cause_text self }
    {
        match self {
            Cause::Bad => "bad or missing word",
            Cause::TooLarge => "number too large",
        }
    }
}

impl fmt::Display for Cause {
    ghost output = { λ x. Some (cause_text x) };

    fn fmt<W: fmt::Write>(&self, f: &mut fmt::Formatter<W>) -> fmt::Result {
        f.write_str(self.words())
    }
}

// A word that cannot be read: its place among the bytes that were handed in, and the number of its line, from 1.
#[derive(Clone, Copy, Debug, PartialEq, Eq)]
pub struct WordFault {
    pub cause: Cause,
    pub span: Span,
    pub line: usize,
}

impl fmt::Display for WordFault {
    ghost output = { λ x. Some (cause_text x.cause) };

    fn fmt<W: fmt::Write>(&self, f: &mut fmt::Formatter<W>) -> fmt::Result {
        self.cause.fmt(f)
    }
}

impl From<WordFault> for Refusal {
    ghost from_gives = { λ f r. r ≡ word_refusal f };

    fn from(fault: WordFault) -> Refusal {
        Refusal {
            number: fault.cause.number(),
            layer: Layer::Word,
            place: Place::Bytes(fault.span),
        }
    }
}

// A line that cannot be read, by its word. By a rule of the project a fault is carried whole from a word to its line and to its log, so
// these are two types of one field.
#[derive(Clone, Copy, Debug, PartialEq, Eq)]
pub struct LineFault {
    pub word: WordFault,
}

impl fmt::Display for LineFault {
    ghost output = { λ x. Some (cause_text x.word.cause) };

    fn fmt<W: fmt::Write>(&self, f: &mut fmt::Formatter<W>) -> fmt::Result {
        self.word.fmt(f)
    }
}

impl From<LineFault> for Refusal {
    ghost from_gives = { λ f r. r ≡ line_refusal f };

    fn from(fault: LineFault) -> Refusal {
        fault.word.into()
    }
}

impl From<WordFault> for LineFault {
    ghost from_gives = { λ w r. r ≡ in_line w };

    fn from(word: WordFault) -> LineFault {
        LineFault { word }
    }
}

// A log that cannot be read, by its line.
#[derive(Clone, Copy, Debug, PartialEq, Eq)]
pub struct LogFault {
    pub line: LineFault,
}

impl fmt::Display for LogFault {
    ghost output = { λ x. Some (cause_text x.line.word.cause) };

    fn fmt<W: fmt::Write>(&self, f: &mut fmt::Formatter<W>) -> fmt::Result {
        self.line.fmt(f)
    }
}

impl From<LogFault> for Refusal {
    ghost from_gives = { λ f r. r ≡ log_refusal f };

    fn from(fault: LogFault) -> Refusal {
        fault.line.into()
    }
}

impl From<LineFault> for LogFault {
    ghost from_gives = { λ l r. r ≡ in_log l };

    fn from(line: LineFault) -> LogFault {
        LogFault { line }
    }
}

// What a line can ask for.
ghost use Rattle.std.specs.Prelude.{◌≡◌, Some};
ghost use Rattle.commands.specs.Forms.{form_text, form_word};

use crate::words::SPACE;
use events::derived::Entry;
use refusals::{Layer, Span};
use std::fmt;
use tokens::pieces::cut;

// A refusal whose bytes are asked for: the rule and the log that it is about, its number, its layer and its place.
#[derive(Drop)]
pub struct Asked {
    pub rule: Vec<u8>,
    pub log: Vec<u8>,
    pub number: u32,
    pub layer: Layer,
    pub span: Span,
}

#[derive(Drop)]
pub enum Command {
    Rule(Vec<u8>),
    Entry(u8, Entry),
    Line(Vec<u8>),
    Record(Vec<u8>),
    BareLine(Vec<u8>),
    BareRecord(Vec<u8>),
    Counts,
    Verdict,
    Held,
    Judge(Vec<u8>),
    Excerpt(Asked),
    Help,
}

// The form that a line should have, by its first word. `Unknown` has a text of its own, so an `Option` of the others would be no plainer.
#[derive(Clone, Copy, Debug, PartialEq, Eq)]
pub enum Usage {
    Rule,
    Entry,
    Line,
    Record,
    Bare,
    Counts,
    Verdict,
    Held,
    Judge,
    Excerpt,
    Help,
    Unknown,
}

// All forms.
pub const FORMS: [Usage; 11] = [
    Usage::Rule,
    Usage::Entry,
    Usage::Line,
    Usage::Record,
    Usage::Bare,
    Usage::Counts,
    Usage::Verdict,
    Usage::Held,
    Usage::Judge,
    Usage::Excerpt,
    Usage::Help,
];

impl Usage {
    // The form in words; it begins with the word of its commands, which is cut from it, so it is not only printed.
    pub fn text(self) -> &'static str
        ensures { result.now ≡ form_text self }
    {
        match self {
            Usage::Rule => "rule HEX",
            Usage::Entry => {
                "entry T SENSE HEX16, with T 48 to 63 and SENSE some, none or absent (then no HEX16)"
            }
            Usage::Line => "line TEXT",
            Usage::Record => "record HEX",
            Usage::Bare => "bare line TEXT, or bare record HEX",
            Usage::Counts => "counts",
            Usage::Verdict => "verdict",
            Usage::Held => "held",
            Usage::Judge => "judge HEX",
            Usage::Excerpt => "excerpt HEX HEX N LAYER AT LEN",
            Usage::Help => "help",
            Usage::Unknown => "a command; help lists them",
        }
    }

    // The word that its commands begin with.
    pub(crate) fn word(self) -> &'static [u8]
        ensures { result.now ≡ form_word self }
    {
        cut(self.text().as_bytes(), SPACE).0
    }
}

impl fmt::Display for Usage {
    ghost output = { λ x. Some (form_text x) };

    fn fmt<W: fmt::Write>(&self, f: &mut fmt::Formatter<W>) -> fmt::Result {
        f.write_str(self.text())
    }
}

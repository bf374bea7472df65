// The text of a reply, one line without its end.
ghost use Rattle.std.specs.Prelude.{◌≡◌, Some};
ghost use Rattle.replies.specs.Text.{reply_text, refused_text, place_text, held_text, judged_text, fault_text, span_of, part_text, forms_text};
ghost use Rattle.replies.specs.Told.{told_by};

use crate::reply::Reply;
use commands::command::{FORMS, Usage};
use commands::hex::Hex;
use judging::fault::JudgeFault;
use judging::judgement::Judgement;
use refusals::{Place, Refusal, Span};
use std::fmt;

impl fmt::Display for Reply {
    ghost output = { λ r. Some (reply_text (told_by r)) };

    fn fmt<W: fmt::Write>(&self, f: &mut fmt::Formatter<W>) -> fmt::Result {
        match self {
            Reply::Rule(count) => write!(f, "rule {count}"),
            Reply::Done => f.write_str("ok"),
            Reply::Shown => f.write_str("shown"),
            Reply::Counts(counts) => write!(f, "{counts}"),
            Reply::Verdict(verdict) => write!(f, "{verdict}"),
            Reply::Held(sizes) => write!(f, "{}", Sizes(sizes.as_slice())),
            Reply::Judged(judgement) => write!(f, "{}", Judged(judgement)),
            Reply::Part(bytes) => write!(f, "{}", Part(bytes.as_slice())),
            Reply::Help => write!(f, "{}", Forms(&FORMS)),
            Reply::Refused(refusal) => write!(f, "{}", Refused(refusal)),
            Reply::Expected(usage) => write!(f, "error expected {usage}"),
        }
    }
}

// The number of states, and their sizes.
#[derive(Clone, Copy)]
struct Sizes<'a>(&'a [usize]);

impl fmt::Display for Sizes<'_> {
    ghost output = { λ x. Some (held_text x.0.now) };

    fn fmt<W: fmt::Write>(&self, f: &mut fmt::Formatter<W>) -> fmt::Result {
        let count = self.0.len();
        write!(f, "held {count}:")?;
        for size in self.0 {
            write!(f, " {size}")?;
        }
        Ok(())
    }
}

// The report, and the fault where there is one.
#[derive(Clone, Copy)]
struct Judged<'a>(&'a Judgement);

impl fmt::Display for Judged<'_> {
    ghost output = { λ x. Some (judged_text x.0.now) };

    fn fmt<W: fmt::Write>(&self, f: &mut fmt::Formatter<W>) -> fmt::Result {
        let Judgement {
            counts,
            verdict,
            fault,
        } = self.0;
        write!(f, "{counts} {verdict}")?;
        match fault {
            Some(fault) => write!(f, "{}", Fault(fault)),
            None => Ok(()),
        }
    }
}

// Number, layer, line and place; 0 and 0 where there is no place. Want of memory has no number.
#[derive(Clone, Copy)]
struct Fault<'a>(&'a JudgeFault);

impl fmt::Display for Fault<'_> {
    ghost output = { λ x. Some (fault_text x.0.now) };

    fn fmt<W: fmt::Write>(&self, f: &mut fmt::Formatter<W>) -> fmt::Result {
        let line = self.0.line();
        match self.0.refusal() {
            Some(
                Refusal {
                    number,
                    layer,
                    place,
                },
            ) => {
                let Span { at, len } = span(place);
                write!(f, " fault {number} {layer} {line} {at} {len}")
            }
            None => f.write_str(" memory"),
        }
    }
}

// The bytes of a place.
fn span(place: Place) -> Span
    ensures { result ≡ span_of place }
{
    match place {
        Place::Bytes(span) => span,
        _ => Span { at: 0, len: 0 },
    }
}

// The bytes in hexadecimal digits.
#[derive(Clone, Copy)]
struct Part<'a>(&'a [u8]);

impl fmt::Display for Part<'_> {
    ghost output = { λ x. Some (part_text x.0.now) };

    fn fmt<W: fmt::Write>(&self, f: &mut fmt::Formatter<W>) -> fmt::Result {
        if self.0.is_empty() {
            return f.write_str("empty");
        }
        write!(f, "{}", Hex(self.0))
    }
}

// Forms of commands.
#[derive(Clone, Copy)]
struct Forms<'a>(&'a [Usage]);

impl fmt::Display for Forms<'_> {
    ghost output = { λ x. Some (forms_text x.0.now) };

    fn fmt<W: fmt::Write>(&self, f: &mut fmt::Formatter<W>) -> fmt::Result {
        f.write_str("commands:")?;
        for usage in self.0 {
            write!(f, " {usage};")?;
        }
        Ok(())
    }
}

// Number, layer and place.
#[derive(Clone, Copy)]
struct Refused<'a>(&'a Refusal);

impl fmt::Display for Refused<'_> {
    ghost output = { λ x. Some (refused_text x.0.now) };

    fn fmt<W: fmt::Write>(&self, f: &mut fmt::Formatter<W>) -> fmt::Result {
        let Refusal {
            number,
            layer,
            place,
        } = *self.0;
        write!(f, "refused {number} {layer}{}", At(place))
    }
}

// A place in bytes by where it begins and how long it is; a node by its number.
#[derive(Clone, Copy)]
struct At(Place);

impl fmt::Display for At {
    ghost output = { λ x. Some (place_text x.0) };

    fn fmt<W: fmt::Write>(&self, f: &mut fmt::Formatter<W>) -> fmt::Result {
        match self.0 {
            Place::Nowhere => Ok(()),
            Place::Node(node) => write!(f, " {node}"),
            Place::Bytes(Span { at, len }) => write!(f, " {at} {len}"),
        }
    }
}

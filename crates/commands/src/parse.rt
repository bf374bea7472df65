// Lines, read into commands.
ghost use Rattle.std.specs.Prelude.{◌≡◌, vec_items};
ghost use Rattle.std.specs.Option.{option_map};
ghost use Rattle.refusals.specs.Options.{on};
ghost use Rattle.commands.specs.Commands.{bare_of, said_in, parsed_of};
ghost use Rattle.commands.specs.Forms.{form_of};
ghost use Rattle.commands.specs.Read.{IfRead};
ghost use Rattle.commands.specs.Said.{said_by, IfTold};

use crate::arguments::{entry, excerpt, hex};
use crate::command::{Command, FORMS, Usage};
use crate::fault::{ParseFault, TextFault};
use crate::words::{SPACE, Words};
use std::alloc::Global;
use tokens::pieces::cut;

// The form that begins with a word.
fn form_of(word: &[u8]) -> Usage
    ensures { result ≡ form_of word.now }
{
    FORMS
        .iter()
        .find(|form| word == form.word())
        .copied()
        .unwrap_or(Usage::Unknown)
}

// TEXT: all that follows a space.
fn text(heap: Global, rest: Option<&[u8]>) -> Result<Vec<u8>, TextFault>
    ensures { IfRead vec_items result (λ o. o ≡ option_map (λ x. x.now) rest.entry) }
{
    Ok(Vec::from_slice(heap, rest.ok_or(TextFault::Malformed)?)?)
}

// `bare`, and then `line TEXT` or `record HEX`.
fn bare(heap: Global, rest: Option<&[u8]>) -> Result<Command, TextFault>
    ensures { IfRead said_by result (λ o. o ≡ on (option_map (λ x. x.now) rest.entry) bare_of) }
{
    let (word, rest) = cut(rest.ok_or(TextFault::Malformed)?, SPACE);
    match word {
        b"line" => text(heap, rest).map(Command::BareLine),
        b"record" => hex(heap, Words::of(rest).only()).map(Command::BareRecord),
        _ => Err(TextFault::Malformed),
    }
}

// A command of a form, by what follows its first word.
fn command(heap: Global, form: Usage, rest: Option<&[u8]>) -> Result<Command, TextFault>
    ensures { IfRead said_by result (λ o. o ≡ said_in form (option_map (λ x. x.now) rest.entry)) }
{
    let words = Words::of(rest);
    match form {
        Usage::Rule => hex(heap, words.only()).map(Command::Rule),
        Usage::Entry => entry(words).ok_or(TextFault::Malformed),
        Usage::Line => text(heap, rest).map(Command::Line),
        Usage::Record => hex(heap, words.only()).map(Command::Record),
        Usage::Bare => bare(heap, rest),
        Usage::Counts => words.alone(Command::Counts),
        Usage::Verdict => words.alone(Command::Verdict),
        Usage::Held => words.alone(Command::Held),
        Usage::Judge => hex(heap, words.only()).map(Command::Judge),
        Usage::Excerpt => excerpt(heap, words),
        Usage::Help => words.alone(Command::Help),
        Usage::Unknown => Err(TextFault::Malformed),
    }
}

// What one line asks for, without the byte that ends it; nothing where it is empty or begins with `#`.
pub fn parse(heap: Global, line: &[u8]) -> Result<Option<Command>, ParseFault>
    ensures { IfTold result (λ t. t ≡ parsed_of line.now) }
{
    if let [] | [b'#', ..] = line {
        return Ok(None);
    }
    let (word, rest) = cut(line, SPACE);
    let form = form_of(word);
    command(heap, form, rest)
        .map(Some)
        .map_err(|fault| fault.in_form(form))
}

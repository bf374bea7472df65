// What follows the first word of a command.
ghost use Rattle.std.specs.Prelude.{◌≡◌, vec_items};
ghost use Rattle.std.specs.Option.{option_map};
ghost use Rattle.refusals.specs.Options.{on};
ghost use Rattle.commands.specs.Commands.{span_of, place_of, excerpt_of, sense_of, entry_of};
ghost use Rattle.commands.specs.Hex.{unhexed};
ghost use Rattle.commands.specs.Read.{IfRead};
ghost use Rattle.commands.specs.Said.{said_by};

use crate::command::{Asked, Command};
use crate::fault::TextFault;
use crate::hex::{set, unhex};
use crate::layers::layer_named;
use crate::words::Words;
use events::derived::{Entry, FIRST_DERIVED, LAST_DERIVED};
use refusals::{Layer, Span};
use std::alloc::Global;
use tokens::numeral::number;

// HEX: the bytes that a word stands for, if there is one.
pub(crate) fn hex(heap: Global, word: Option<&[u8]>) -> Result<Vec<u8>, TextFault>
    ensures { IfRead vec_items result (λ o. o ≡ on (option_map (λ x. x.now) word.entry) unhexed) }
{
    unhex(heap, word.ok_or(TextFault::Malformed)?)
}

// SENSE HEX16
fn sense(mut words: Words) -> Option<Entry>
    ensures { result ≡ sense_of words.entry }
{
    match words.next()? {
        b"absent" => words.alone(Entry::Absent).ok(),
        b"some" => Some(Entry::AnyOf(set(words.only()?)?)),
        b"none" => Some(Entry::NoneOf(set(words.only()?)?)),
        _ => None,
    }
}

// T SENSE HEX16
pub(crate) fn entry(mut words: Words) -> Option<Command>
    ensures { option_map said_by result ≡ entry_of words.entry }
{
    let ty = number(words.next()?, u64::from(LAST_DERIVED))? as u8;
    if ty < FIRST_DERIVED {
        return None;
    }
    Some(Command::Entry(ty, sense(words)?))
}

// AT LEN
fn span(mut words: Words) -> Option<Span>
    ensures { result ≡ span_of words.entry }
{
    Some(Span {
        at: number(words.next()?, u64::MAX)? as usize,
        len: number(words.only()?, u64::MAX)? as usize,
    })
}

// N LAYER AT LEN
fn place(mut words: Words) -> Option<(u32, Layer, Span)>
    ensures { result ≡ place_of words.entry }
{
    let number = number(words.next()?, u64::from(u32::MAX))? as u32;
    let layer = layer_named(words.next()?)?;
    Some((number, layer, span(words)?))
}

// HEX HEX N LAYER AT LEN
pub(crate) fn excerpt(heap: Global, mut words: Words) -> Result<Command, TextFault>
    ensures { IfRead said_by result (λ o. o ≡ excerpt_of words.entry) }
{
    let rule = hex(heap, words.next())?;
    let log = hex(heap, words.next())?;
    let (number, layer, span) = place(words).ok_or(TextFault::Malformed)?;
    Ok(Command::Excerpt(Asked {
        rule,
        log,
        number,
        layer,
        span,
    }))
}

// Bytes in hexadecimal digits.
ghost use Rattle.std.specs.Prelude.{◌≡◌, ◌<◌, [], ◌∷◌, Some, IfOk, vec_items, string_bytes};
ghost use Rattle.commands.specs.Hex.{digit_of, pair_of, pairs_of, unhexed, digit_text, hex_text, Exactly, set_of};
ghost use Rattle.commands.specs.Read.{IfRead};

use crate::fault::TextFault;
use events::types::TypeSet;
use std::alloc::{AllocError, Global};
use std::fmt;

// What a digit stands for, in either case.
fn digit(b: u8) -> Option<u8>
    ensures { result ≡ digit_of b }
{
    char::from(b).to_digit(16).map(|d| d as u8)
}

fn pair(high: u8, low: u8) -> Option<u8>
    ensures { result ≡ pair_of high low }
{
    let (high, low) = (digit(high)?, digit(low)?);
    Some(high * 16 + low)
}

// The bytes that pairs of digits stand for.
fn pairs(heap: Global, text: &[u8]) -> Result<Vec<u8>, TextFault>
    ensures { IfRead vec_items result (λ o. o ≡ pairs_of text.now) }
{
    let mut bytes = Vec::new(heap);
    let mut left = text;
    while let [high, low, rest @ ..] = left {
        bytes.push(pair(*high, *low).ok_or(TextFault::Malformed)?)?;
        left = rest;
    }
    if left.is_empty() {
        Ok(bytes)
    } else {
        Err(TextFault::Malformed)
    }
}

// The bytes of a text: two digits for each, in either case, and `-` where there are none.
pub fn unhex(heap: Global, text: &[u8]) -> Result<Vec<u8>, TextFault>
    ensures answer { IfRead vec_items result (λ o. o ≡ unhexed text.now) }
    ensures exact { IfRead vec_items result (Exactly text.now) }
{
    match text {
        [] => Err(TextFault::Malformed),
        [b'-'] => Ok(Vec::new(heap)),
        _ => pairs(heap, text),
    }
}

// A set of types, as sixteen digits.
pub(crate) fn set(text: &[u8]) -> Option<TypeSet>
    ensures { result ≡ set_of text.now }
{
    if text.len() != 16 {
        return None;
    }
    let mut bits: u64 = 0;
    for b in text {
        bits = bits * 16 + u64::from(digit(*b)?);
    }
    Some(TypeSet { bits })
}

// A digit as it is written, in lower case.
fn digit_text(n: u8) -> &'static str
    requires { n < 16 }
    ensures { result.now ≡ digit_text n ∷ [] }
{
    match n {
        0 => "0",
        1 => "1",
        2 => "2",
        3 => "3",
        4 => "4",
        5 => "5",
        6 => "6",
        7 => "7",
        8 => "8",
        9 => "9",
        10 => "a",
        11 => "b",
        12 => "c",
        13 => "d",
        14 => "e",
        _ => "f",
    }
}

// Bytes, written as two digits for each, in lower case, and as `-` where there are none. Each digit is written as a text: `{b:02x}` takes
// five times as long.
#[derive(Clone, Copy)]
pub struct Hex<'a>(pub &'a [u8]);

impl<'a> fmt::Display for Hex<'a> {
    ghost output = { λ x. Some (hex_text x.0.now) };

    fn fmt<W: fmt::Write>(&self, f: &mut fmt::Formatter<W>) -> fmt::Result {
        if self.0.is_empty() {
            return f.write_str("-");
        }
        for b in self.0 {
            f.write_str(digit_text(b / 16))?;
            f.write_str(digit_text(b % 16))?;
        }
        Ok(())
    }
}

// The text of bytes, of which they are read again.
pub fn hex_text(heap: Global, bytes: &[u8]) -> Result<String, AllocError>
    ensures text { IfOk result (λ s. string_bytes s ≡ hex_text bytes.now) }
    ensures back { IfOk result (λ s. unhexed (string_bytes s) ≡ Some bytes.now) }
{
    Hex(bytes).to_string(heap)
}

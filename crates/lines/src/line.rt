// Events as lines of text.
ghost use Rattle.std.specs.Prelude.{◌≡◌, List, ℕ, Option};
ghost use Rattle.events.specs.Meanings.{single};
ghost use Rattle.events.specs.Sets.{those_known};
ghost use Rattle.lines.specs.Lines.{line_of, alone, form_of, numbers_of, fault_of, slot_of, follows, puts, through, Computes, words_left};
ghost use Rattle.lines.specs.Pieces.{piece_of};
ghost use Rattle.lines.specs.Text.{Exactly};

use crate::fault::{Cause, LineFault, WordFault};
use crate::placed::Placed;
use crate::words::{SPACE, Words};
use events::event::Event;
use events::fields::{Fields, MOST_TYPE};
use tokens::numeral::{is_numeral, value};

// An event that came as a line.
#[derive(Clone, Copy)]
pub struct Line {
    pub fields: Fields,
}

impl Line {
    // Reads words between single spaces: a type, and then at most one each of p, c and s with digits.
    #[tactic(auto, using(crate::proofs::Exact::exactly))]
    pub fn read(bytes: &[u8]) -> Result<Line, LineFault>
        ensures answer { result ≡ alone bytes.now }
        ensures exact { Exactly bytes.now result }
    {
        read_at(Placed { bytes, at: 0 }, 1)
    }
}

// As for `Record`: by a rule of the project each kind of event implements the interface itself.
impl Event for Line {
    ghost meaning = { λ x. single x.fields };

    ghost known = { λ x. those_known _ };

    fn is_of(&self, ty: u8) -> bool {
        self.fields.is_of(ty)
    }

    fn slot(&self, slot: u8) -> Option<u32> {
        self.fields.slot(slot)
    }
}

// Reads a line that has its place in a log and a number there.
pub(crate) fn read_at(line: Placed, number: usize) -> Result<Line, LineFault>
    ensures { result ≡ line_of number line.entry.at line.entry.bytes.now }
{
    // Any bad word comes before one whose number is too large.
    check_form(line, number)?;
    let fields = read_numbers(line, number)?;
    Ok(Line { fields })
}

// Is the first word a number, and is each other a letter and a number, in the order of the slots? The answer is the slot after the last.
fn check_form(line: Placed, number: usize) -> Result<u8, WordFault>
    ensures { result ≡ form_of number line.entry.at line.entry.bytes.now }
{
    let (first, rest) = line.cut(SPACE);
    if !is_numeral(first.bytes) {
        return Err(fault(Cause::Bad, number, first));
    }
    through(Words(rest), Cause::Bad, number, 0, slot_after)
}

// The numbers of the words, unless one is too large.
fn read_numbers(line: Placed, number: usize) -> Result<Fields, WordFault>
    ensures { result ≡ numbers_of number line.entry.at line.entry.bytes.now }
{
    let (first, rest) = line.cut(SPACE);
    let ty = value(first.bytes, u64::from(MOST_TYPE)).ok_or(fault(Cause::TooLarge, number, first))?;
    let fields = Fields {
        ty: ty as u8,
        player: None,
        card: None,
        strokes: None,
    };
    through(Words(rest), Cause::TooLarge, number, fields, put)
}

fn fault(cause: Cause, line: usize, word: Placed) -> WordFault
    ensures { result ≡ fault_of cause line (piece_of word.entry) }
{
    WordFault {
        cause,
        span: word.span(),
        line,
    }
}

// Takes the words of a line one after the other; the first that does not fit is refused.
fn through<S: Copy, F: Fn(S, &[u8]) -> Option<S>>(
    words: Words,
    cause: Cause,
    line: usize,
    first: S,
    step: F,
) -> Result<S, WordFault>
    requires { F.IsAlwaysCallable step }
    ensures { (f : S → List ℕ → Option S) → Computes (F.post step) f → result ≡ through f cause line first (words_left words.entry) }
{
    let mut state = first;
    for word in words {
        state = step(state, word.bytes).ok_or(fault(cause, line, word))?;
    }
    Ok(state)
}

// The slot that a letter names, as a number, since only the order of slots counts here: an enum of three would be no plainer.
fn slot_of(letter: u8) -> Option<u8>
    ensures { result ≡ slot_of letter }
{
    match letter {
        b'p' => Some(0),
        b'c' => Some(1),
        b's' => Some(2),
        _ => None,
    }
}

// One after the slot that a word is for, unless that is below `next`.
fn slot_after(next: u8, word: &[u8]) -> Option<u8>
    ensures { result ≡ follows next word.now }
{
    let [letter, digits @ ..] = word else {
        return None;
    };
    let slot = slot_of(*letter)?;
    if slot >= next && is_numeral(digits) {
        Some(slot + 1)
    } else {
        None
    }
}

// The fields with a word's number in the slot of its letter, unless it is too large.
fn put(fields: Fields, word: &[u8]) -> Option<Fields>
    ensures { result ≡ puts fields word.now }
{
    let [letter, digits @ ..] = word else {
        return None;
    };
    match *letter {
        b'p' => {
            let player = Some(value(digits, u64::from(u32::MAX))? as u32);
            Some(Fields { player, ..fields })
        }
        b'c' => {
            let card = Some(value(digits, u64::from(u32::MAX))? as u32);
            Some(Fields { card, ..fields })
        }
        _ => {
            let strokes = Some(value(digits, u64::from(u8::MAX))? as u8);
            Some(Fields { strokes, ..fields })
        }
    }
}

// Events as binary records.
#![tactic(auto)]

ghost use Rattle.std.specs.Prelude.{◌≡◌};
ghost use Rattle.events.specs.Meanings.{single};
ghost use Rattle.events.specs.Sets.{those_known};
ghost use Rattle.records.specs.Encoding.{Exactly};
ghost use Rattle.records.specs.Records.{record_of, record_refusal, fields_of, announced};

use crate::field::field;
use events::event::Event;
use events::fields::{Fields, MOST_TYPE};
use refusals::{Layer, Place, Refusal, Span};

mod field;

// A map announces the player by bit 0, the card by bit 1 and the strokes by bit 2.
const MOST_MAP: u8 = 7;

// An event that came as a record.
#[derive(Clone, Copy, Debug, PartialEq, Eq)]
pub struct Record {
    pub fields: Fields,
}

// Bytes that are no record: all of them.
#[derive(Clone, Copy, Debug, PartialEq, Eq)]
pub struct RecordFault {
    pub span: Span,
}

impl From<RecordFault> for Refusal {
    ghost from_gives = { λ f r. r ≡ record_refusal f };

    fn from(fault: RecordFault) -> Refusal {
        Refusal {
            number: 11,
            layer: Layer::Record,
            place: Place::Bytes(fault.span),
        }
    }
}

impl Record {
    // Reads a map byte, a type byte, and the fields that the map announces.
    #[tactic(auto, using(crate::proofs::Exact::exactly_at))]
    pub fn read(bytes: &[u8]) -> Result<Record, RecordFault>
        ensures answer { result ≡ record_of bytes.now }
        ensures exact { Exactly bytes.now result }
    {
        let span = Span {
            at: 0,
            len: bytes.len(),
        };
        match fields_of(bytes) {
            Some(fields) => Ok(Record { fields }),
            None => Err(RecordFault { span }),
        }
    }
}

// As for `Line`: by a rule of the project each kind of event implements the interface itself.
impl Event for Record {
    ghost meaning = { λ x. single x.fields };

    ghost known = { λ x. those_known _ };

    fn is_of(&self, ty: u8) -> bool {
        self.fields.is_of(ty)
    }

    fn slot(&self, slot: u8) -> Option<u32> {
        self.fields.slot(slot)
    }
}

// By a rule of the project a record is read by this slice pattern, and then each announced field by a pattern.
fn fields_of(bytes: &[u8]) -> Option<Fields>
    ensures { result ≡ fields_of bytes.now }
{
    let [map, kind, rest @ ..] = bytes else {
        return None;
    };
    if *map > MOST_MAP || *kind > MOST_TYPE {
        return None;
    }
    announced_fields(*map, *kind, rest)
}

fn announced_fields(map: u8, ty: u8, bytes: &[u8]) -> Option<Fields>
    ensures { result ≡ announced map ty bytes.now }
{
    let (player, rest) = field(map % 2 == 1, bytes)?;
    let (card, rest) = field(map / 2 % 2 == 1, rest)?;
    let (strokes, rest) = field(map / 4 % 2 == 1, rest)?;
    match rest {
        [] => Some(Fields {
            ty,
            player,
            card,
            strokes,
        }),
        _ => None,
    }
}

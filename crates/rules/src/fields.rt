// The fields of a node, read one after the other.
ghost use Rattle.std.specs.Prelude.{◌≡◌, Some, None, MatchOption};
ghost use Rattle.rules.specs.Map.{is_set, bit_of, width_of};
ghost use Rattle.rules.specs.Bytes.{Takes, part_of, byte_of, field_of, fields_of};

use crate::map::{Field, announces};
use crate::record::{NodeRecord, SlotField};

// The map of a node, and the bytes from its next field on.
#[derive(Clone, Copy)]
struct Fields<'a> {
    map: u8,
    rest: &'a [u8],
}

impl<'a> Fields<'a> {
    // The next bytes, if the map announces the field; else none of them.
    fn part(&mut self, field: Field, len: usize) -> Option<&'a [u8]>
        ensures part { MatchOption result (part_of (width_of (is_set self.old.map (bit_of field)) len) self.old.rest.now ≡ None) (λ p. part_of (width_of (is_set self.old.map (bit_of field)) len) self.old.rest.now ≡ Some (p.now, self.new.rest.now)) }
        ensures map { self.new.map ≡ self.old.map }
    {
        let width = if announces(self.map, field) { len } else { 0 };
        if self.rest.len() < width {
            return None;
        }
        let (part, rest) = self.rest.split_at(width);
        self.rest = rest;
        Some(part)
    }

    fn byte(&mut self, field: Field) -> Option<u8>
        ensures byte { Takes (byte_of (is_set self.old.map (bit_of field)) self.old.rest.now) result self.new.rest.now }
        ensures map { self.new.map ≡ self.old.map }
    {
        match self.part(field, 1)? {
            [byte] => Some(*byte),
            _ => Some(0),
        }
    }

    fn slot(&mut self, field: Field) -> Option<SlotField>
        ensures slot { Takes (field_of (is_set self.old.map (bit_of field)) self.old.rest.now) result self.new.rest.now }
        ensures map { self.new.map ≡ self.old.map }
    {
        match self.part(field, 5)? {
            [tag, a, b, c, d] => Some(SlotField {
                tag: *tag,
                number: u32::from_be_bytes([*a, *b, *c, *d]),
            }),
            _ => Some(SlotField::NONE),
        }
    }
}

// The record of a node with this map, and what follows its fields.
pub(crate) fn read_fields(map: u8, bytes: &[u8]) -> Option<(NodeRecord, &[u8])>
    ensures { MatchOption result (fields_of map bytes.now ≡ None) (λ p. fields_of map bytes.now ≡ Some (p.0, p.1.now)) }
{
    let mut fields = Fields { map, rest: bytes };
    let record = NodeRecord {
        map,
        kind: fields.byte(Field::Kind)?,
        first: fields.byte(Field::First)?,
        second: fields.byte(Field::Second)?,
        ty: fields.byte(Field::Ty)?,
        variable: fields.byte(Field::Variable)?,
        player: fields.slot(Field::Player)?,
        card: fields.slot(Field::Card)?,
        strokes: fields.slot(Field::Strokes)?,
    };
    Some((record, fields.rest))
}

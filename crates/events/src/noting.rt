// The answers of an event, as plain values.
ghost use Rattle.std.specs.Prelude.{◌≡◌};
ghost use Rattle.events.specs.Types.{common};

use crate::event::Event;
use crate::meaning::Meaning;
use crate::types::TypeSet;

// The types of a set that an event is of; it is asked once for each type of the set.
pub(crate) fn types_among<E: Event>(event: &E, set: TypeSet) -> TypeSet
    ensures { result ≡ common set (E.meaning event.now).types }
{
    let mut bits: u64 = 0;
    for ty in 0..64u8 {
        if set.contains(ty) && event.is_of(ty) {
            bits += 1u64 << ty;
        }
    }
    TypeSet { bits }
}

// Queries an event once for each type and slot: the answers are its meaning.
pub fn noted<E: Event>(event: &E) -> Meaning
    ensures { result ≡ E.meaning event.now }
{
    Meaning {
        types: types_among(event, TypeSet::ALL),
        player: event.slot(0),
        card: event.slot(1),
        strokes: event.slot(2),
    }
}

// Types that are derived from those of an event.
ghost use Rattle.std.specs.Prelude.{◌≡◌};
ghost use Rattle.events.specs.Derivation.{derived, place_of, entry_for, with_entry};
ghost use Rattle.events.specs.Sets.{those_known};

use crate::event::Event;
use crate::noting::types_among;
use crate::types::TypeSet;

// The lowest type that an entry can derive.
pub const FIRST_DERIVED: u8 = 48;

// The highest one, which is the highest type of all.
pub const LAST_DERIVED: u8 = 63;

// What derives one type, if anything does: the event below is of at least one type of the set, or of none. An `Option` of two would be
// no plainer: each `match` tells three apart.
#[derive(Clone, Copy, Debug, PartialEq, Eq)]
pub enum Entry {
    Absent,
    AnyOf(TypeSet),
    NoneOf(TypeSet),
}

// The place of a type's entry, for a type that can have one.
fn place(ty: u8) -> Option<usize>
    ensures { result ≡ place_of ty }
{
    if ty >= FIRST_DERIVED && ty <= LAST_DERIVED {
        Some(usize::from(ty - FIRST_DERIVED))
    } else {
        None
    }
}

// The entries for types 48 to 63, in their order.
#[derive(Clone, Copy, Debug, PartialEq, Eq)]
pub struct Entries {
    pub list: [Entry; 16],
}

impl Entries {
    // No type is derived.
    pub const NONE: Entries = Entries {
        list: [Entry::Absent; 16],
    };

    // Another entry for one type; a type that no entry is for leaves them as they are.
    pub fn with(mut self, ty: u8, entry: Entry) -> Entries
        ensures { result ≡ with_entry self ty entry }
    {
        if let Some(at) = place(ty) {
            self.list[at] = entry;
        }
        self
    }

    // The entry for a type; absent for one that no entry is for.
    pub fn entry_for(&self, ty: u8) -> Entry
        ensures { result ≡ entry_for self.now ty }
    {
        match place(ty) {
            Some(at) => self.list[at],
            None => Entry::Absent,
        }
    }
}

// An event with further types: those of its entries, over an event of any kind.
#[derive(Drop)]
pub struct Derived<E> {
    pub below: E,
    pub entries: Entries,
}

impl<E: Event> Event for Derived<E> {
    ghost meaning = { λ x. derived (E.Event.meaning x.below) x.entries };

    ghost known = { λ x. those_known _ };

    fn is_of(&self, ty: u8) -> bool {
        match self.entries.entry_for(ty) {
            Entry::Absent => self.below.is_of(ty),
            Entry::AnyOf(set) => !types_among(&self.below, set).is_empty(),
            Entry::NoneOf(set) => types_among(&self.below, set).is_empty(),
        }
    }

    fn slot(&self, slot: u8) -> Option<u32> {
        self.below.slot(slot)
    }
}

// What an event means.
use crate::types::TypeSet;

// The types that an event is of, and what its three slots hold.
#[derive(Clone, Copy, Debug, PartialEq, Eq)]
pub struct Meaning {
    pub types: TypeSet,
    pub player: Option<u32>,
    pub card: Option<u32>,
    pub strokes: Option<u32>,
}

// The map of a node: which fields its bytes have.
ghost use Rattle.std.specs.Prelude.{◌≡◌, ◌<◌, ◌≤◌};
ghost use Rattle.rules.specs.Map.{is_set, bit_of, len_of, width_of};

// A field of a node's bytes, and the power of two that its bit of the map stands for.
#[derive(Clone, Copy)]
pub enum Field {
    Kind = 1,
    First = 2,
    Second = 4,
    Ty = 8,
    Variable = 16,
    Player = 32,
    Card = 64,
    Strokes = 128,
}

impl Field {
    // In the order of the bytes.
    pub(crate) const ALL: [Field; 8] = [
        Field::Kind,
        Field::First,
        Field::Second,
        Field::Ty,
        Field::Variable,
        Field::Player,
        Field::Card,
        Field::Strokes,
    ];

    pub(crate) fn bit(self) -> u8
        ensures is { result ≡ bit_of self }
        ensures some { 0 < result }
    {
        self as u8
    }

    // How many bytes the field has, where the map announces it.
    fn len(self) -> usize
        ensures { result ≡ len_of self }
    {
        match self {
            Field::Player | Field::Card | Field::Strokes => 5,
            _ => 1,
        }
    }

    // How many bytes the field has in a node with this map.
    pub(crate) fn width(self, map: u8) -> usize
        ensures is { result ≡ width_of (is_set map (bit_of self)) (len_of self) }
        ensures most { result ≤ 5 }
    {
        if announces(map, self) { self.len() } else { 0 }
    }
}

// Whether a map announces a field.
pub(crate) fn announces(map: u8, field: Field) -> bool
    ensures { result ≡ is_set map (bit_of field) }
{
    map / field.bit() % 2 == 1
}

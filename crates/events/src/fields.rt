// What a record and a line both carry.
ghost use Rattle.std.specs.Prelude.{◌≡◌};
ghost use Rattle.events.specs.Types.{has};
ghost use Rattle.events.specs.Meanings.{single, in_slot};

// The highest type that a record or a line can carry.
pub const MOST_TYPE: u8 = 47;

// One type, and three slots of which some are filled.
#[derive(Clone, Copy, Debug, PartialEq, Eq)]
pub struct Fields {
    pub ty: u8,
    pub player: Option<u32>,
    pub card: Option<u32>,
    pub strokes: Option<u8>,
}

impl Fields {
    #[tactic(auto, using(std::proofs::lemmas::Bool::Decides::nat_tests, crate::specs::Sets::has_those))]
    pub fn is_of(&self, ty: u8) -> bool
        ensures { result ≡ has (single self.now).types ty }
    {
        ty < 64 && ty == self.ty
    }

    pub fn slot(&self, slot: u8) -> Option<u32>
        ensures { result ≡ in_slot (single self.now) slot }
    {
        match slot {
            0 => self.player,
            1 => self.card,
            2 => self.strokes.map(u32::from),
            _ => None,
        }
    }
}

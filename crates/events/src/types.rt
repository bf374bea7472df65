// Sets of event types.
ghost use Rattle.std.specs.Prelude.{◌≡◌};
ghost use Rattle.events.specs.Types.{has, is_empty};

// A set of types, numbered 0 to 63: type t is in it where bit t is set.
#[derive(Clone, Copy, Debug, PartialEq, Eq)]
pub struct TypeSet {
    pub bits: u64,
}

impl TypeSet {
    // Every type.
    pub const ALL: TypeSet = TypeSet { bits: u64::MAX };

    pub fn is_empty(self) -> bool
        ensures { result ≡ is_empty self }
    {
        self.bits == 0
    }

    #[tactic(auto, using(std::proofs::lemmas::Bool::Decides::nat_tests), unfolding(crate::specs::Types::has))]
    pub fn contains(self, ty: u8) -> bool
        ensures { result ≡ has self ty }
    {
        ty < 64 && (self.bits >> ty) % 2 == 1
    }
}

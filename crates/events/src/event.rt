// The interface of every kind of event.
ghost use Rattle.std.specs.Prelude.{◌≡◌, ◌^◌, ◌<◌};
ghost use Rattle.events.specs.declared.meaning.Meaning.{Meaning};
ghost use Rattle.events.specs.Types.{has};
ghost use Rattle.events.specs.Meanings.{in_slot};

// What can be asked of an event. A kind of event says what each of its values means, and owes these answers and no more.
pub trait Event {
    ghost meaning: { Self → Meaning };

    // Is it of this type? No, for a type over 63.
    fn is_of(&self, ty: u8) -> bool
        ensures { result ≡ has (meaning self.now).types ty };

    // What does the slot hold? Nothing, for a slot over 2: by a rule of the project any number can be asked.
    fn slot(&self, slot: u8) -> Option<u32>
        ensures { result ≡ in_slot (meaning self.now) slot };

    // The types are 0 to 63.
    ghost known: { (x : Self) → (meaning x).types.bits < 2 ^ 64 };
}

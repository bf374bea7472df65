// Cutting bytes at a separator.
ghost use Rattle.std.specs.Prelude.{◌≡◌, ◌+◌, length, MatchOption, position, ◌==◌};
ghost use Rattle.std.specs.Option.{option_map};
ghost use Rattle.tokens.specs.Pieces.{before, after};

// The place of the first separator.
fn first_place(bytes: &[u8], separator: u8) -> Option<usize>
    ensures { result ≡ position (λ b. b == separator) bytes.now }
{
    bytes.iter().position(|b| *b == separator)
}

// What stands before the first separator, and what follows it, if there is one.
pub fn cut(bytes: &[u8], separator: u8) -> (&[u8], Option<&[u8]>)
    ensures first { result.0.now ≡ before separator bytes.now }
    ensures rest { option_map (λ x. x.now) result.1 ≡ after separator bytes.now }
    ensures lengths { MatchOption result.1 (length result.0.now ≡ length bytes.now) (λ x. length result.0.now + 1 + length x.now ≡ length bytes.now) }
{
    match first_place(bytes, separator) {
        Some(at) => (&bytes[..at], Some(&bytes[at + 1..])),
        None => (bytes, None),
    }
}

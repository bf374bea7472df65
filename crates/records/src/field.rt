// The fields of a record.
ghost use Rattle.std.specs.Prelude.{◌≡◌, ℕ, List, Option};
ghost use Rattle.std.specs.Option.{option_map};
ghost use Rattle.records.specs.Records.{bytes4, bytes1, field};

// A number that stands in a record, in so many bytes.
pub(crate) trait Number: Sized + Copy {
    ghost first: { List ℕ → Option (Self × List ℕ) };

    // The number that stands at the front of the bytes, and what follows it; nothing where bytes are missing.
    fn split(bytes: &[u8]) -> Option<(Self, &[u8])>
        ensures { option_map (λ p. (p.0, p.1.now)) result ≡ first bytes.now };
}

// The highest byte comes first.
impl Number for u32 {
    ghost first = { bytes4 };

    fn split(bytes: &[u8]) -> Option<(u32, &[u8])> {
        match bytes {
            [a, b, c, d, rest @ ..] => Some((u32::from_be_bytes([*a, *b, *c, *d]), rest)),
            _ => None,
        }
    }
}

impl Number for u8 {
    ghost first = { bytes1 };

    fn split(bytes: &[u8]) -> Option<(u8, &[u8])> {
        match bytes {
            [a, rest @ ..] => Some((*a, rest)),
            _ => None,
        }
    }
}

// A field, if it is announced, and what follows it; nothing where bytes are missing.
pub(crate) fn field<N: Number>(announced: bool, bytes: &[u8]) -> Option<(Option<N>, &[u8])>
    ensures { option_map (λ p. (p.0, p.1.now)) result ≡ field N.first announced bytes.now }
{
    if !announced {
        return Some((None, bytes));
    }
    let (number, rest) = N::split(bytes)?;
    Some((Some(number), rest))
}

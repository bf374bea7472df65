// Numbers written in decimal digits.
ghost use Rattle.std.specs.Prelude.{◌≡◌, ◌≤◌, IfSome};
ghost use Rattle.tokens.specs.Numerals.{all_digits, is_well_formed, within, number_of};

fn is_digits(bytes: &[u8]) -> bool
    ensures { result ≡ all_digits bytes.now }
{
    bytes.iter().all(|b| b.is_ascii_digit())
}

// Digits, at least one, and no 0 before another.
pub fn is_numeral(bytes: &[u8]) -> bool
    ensures { result ≡ is_well_formed bytes.now }
{
    match bytes {
        [] => false,
        [digit] => digit.is_ascii_digit(),
        [first, ..] => *first != b'0' && is_digits(bytes),
    }
}

// The number that digits stand for, unless it is over `most`.
pub fn value(digits: &[u8], most: u64) -> Option<u64>
    ensures number { result ≡ within most digits.now }
    ensures small { IfSome result (λ n. n ≤ most) }
{
    let mut n: u128 = 0;
    for digit in digits {
        n = n * 10 + u128::from(digit.saturating_sub(b'0'));
        if n > u128::from(most) {
            return None;
        }
    }
    Some(n as u64)
}

// The number that a word stands for, if it is one and is not over `most`.
pub fn number(word: &[u8], most: u64) -> Option<u64>
    ensures { result ≡ number_of most word.now }
{
    if is_numeral(word) {
        value(word, most)
    } else {
        None
    }
}

// Bytes as readable text.
ghost use Rattle.std.specs.Prelude.{◌≡◌, ◌<◌, [], ◌∷◌, Some};
ghost use Rattle.refusals.specs.Text.{hex_digit, is_plain, escaped, quoted_of};

use std::fmt;

// A hexadecimal digit, with capital letters.
fn hex_digit(n: u8) -> &'static str
    requires { n < 16 }
    ensures { result.now ≡ hex_digit n ∷ [] }
{
    match n {
        0 => "0",
        1 => "1",
        2 => "2",
        3 => "3",
        4 => "4",
        5 => "5",
        6 => "6",
        7 => "7",
        8 => "8",
        9 => "9",
        10 => "A",
        11 => "B",
        12 => "C",
        13 => "D",
        14 => "E",
        _ => "F",
    }
}

// Printable, and neither a quote nor a backslash.
fn is_plain(b: u8) -> bool
    ensures { result ≡ is_plain b }
{
    b >= 32 && b <= 126 && b != b'"' && b != b'\\'
}

// A byte as it stands between quotes. All of it is written as texts: `{b:02X}` takes three times as long, and `write_char` nearly twice.
#[derive(Clone, Copy)]
struct Escaped(u8);

impl fmt::Display for Escaped {
    ghost output = { λ x. Some (escaped x.0) };

    fn fmt<W: fmt::Write>(&self, f: &mut fmt::Formatter<W>) -> fmt::Result {
        let b = self.0;
        if is_plain(b) {
            f.write_str(char::from(b).encode_utf8(&mut [0; 4]))
        } else {
            f.write_str("\\x")?;
            f.write_str(hex_digit(b / 16))?;
            f.write_str(hex_digit(b % 16))
        }
    }
}

// Bytes between quotes; one that does not print is written `\x` and two hexadecimal digits.
#[derive(Clone, Copy)]
pub struct Quoted<'a>(pub &'a [u8]);

impl fmt::Display for Quoted<'_> {
    ghost output = { λ x. Some (quoted_of x.0.now) };

    fn fmt<W: fmt::Write>(&self, f: &mut fmt::Formatter<W>) -> fmt::Result {
        f.write_str("\"")?;
        for b in self.0 {
            let byte = Escaped(*b);
            write!(f, "{byte}")?;
        }
        f.write_str("\"")
    }
}

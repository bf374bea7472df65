// How counts are written out.
ghost use Rattle.std.specs.Prelude.{Some};
ghost use Rattle.monitor.specs.Text.{counts_text};

use crate::Counts;
use std::fmt;

impl fmt::Display for Counts {
    ghost output = { λ c. Some (counts_text c) };

    fn fmt<W: fmt::Write>(&self, f: &mut fmt::Formatter<W>) -> fmt::Result {
        let Counts { shown, taken } = *self;
        write!(f, "shown {shown} taken {taken}")
    }
}

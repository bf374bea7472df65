// What a run amounts to, and what it is called.
ghost use Rattle.std.specs.Prelude.{◌≡◌, Some};
ghost use Rattle.calculus.specs.Verdicts.{word_of};

use std::fmt;

// A broken run was shown an event that it could not take; any other may end here, or is open.
#[derive(Clone, Copy, PartialEq, Eq, Debug)]
pub enum Verdict {
    Broken,
    MayEnd,
    Open,
}

impl Verdict {
    // The verdict's word in a report.
    pub fn name(self) -> &'static str
        ensures { result.now ≡ word_of self }
    {
        match self {
            Verdict::MayEnd => "may end",
            Verdict::Open => "open",
            Verdict::Broken => "broken",
        }
    }
}

impl fmt::Display for Verdict {
    ghost output = { λ v. Some (word_of v) };

    fn fmt<W: fmt::Write>(&self, f: &mut fmt::Formatter<W>) -> fmt::Result {
        f.write_str(self.name())
    }
}

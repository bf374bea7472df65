// Why a list of records is no rule, and what the refusal answers.
ghost use Rattle.std.specs.Prelude.{◌≡◌, Some};
ghost use Rattle.checking.specs.Refusals.{refusal_of, cause_of};

use refusals::{Layer, Place, Refusal};
use std::fmt;

// Why checking refuses a list of records; a number is that of the lowest such node.
#[derive(Clone, Copy)]
pub enum CheckFault {
    // There are not 1 to 128 records.
    BadCount,
    // The record breaks a line of the layout.
    BadLayout(u8),
    // A path of links that no prefix guards leads from the node to itself.
    Loop(u8),
    // The node weighs over 1000.
    TooHeavy(u8),
    // A variable is free in node 0.
    FreeAtStart,
}

impl From<CheckFault> for Refusal {
    ghost from_gives = { λ fault r. r ≡ refusal_of fault };

    fn from(fault: CheckFault) -> Refusal {
        let (number, node) = match fault {
            CheckFault::BadCount => (2, 0),
            CheckFault::BadLayout(n) => (3, n),
            CheckFault::Loop(n) => (5, n),
            CheckFault::TooHeavy(n) => (6, n),
            CheckFault::FreeAtStart => (7, 0),
        };
        Refusal {
            number,
            layer: Layer::Checking,
            place: Place::Node(node),
        }
    }
}

impl CheckFault {
    // The cause in plain words, which unlike printing it cannot fail.
    pub fn cause(&self) -> &'static str
        ensures { result.now ≡ cause_of self.now }
    {
        match *self {
            CheckFault::BadCount => "the count is not 1 to 128",
            CheckFault::BadLayout(_) => "a node breaks the layout",
            CheckFault::Loop(_) => "a node is on a loop",
            CheckFault::TooHeavy(_) => "a node weighs over 1000",
            CheckFault::FreeAtStart => "node 0 has a free variable",
        }
    }
}

impl fmt::Display for CheckFault {
    ghost output = { λ fault. Some (cause_of fault) };

    fn fmt<W: fmt::Write>(&self, f: &mut fmt::Formatter<W>) -> fmt::Result {
        f.write_str(self.cause())
    }
}

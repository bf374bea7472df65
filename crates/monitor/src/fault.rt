// Why an event is not shown.
ghost use Rattle.std.specs.Prelude.{◌≡◌, Some};
ghost use Rattle.monitor.specs.Faults.{turned, refusal_of, cause_of};

use refusals::{Layer, Place, Refusal};
use std::error::Error;
use std::fmt;
use stepping::fault::StepFault;

// The monitor was shown all that it can be; it would have to hold too much; or memory is wanting.
#[derive(Clone, Copy, PartialEq, Eq, Debug)]
pub enum ShowFault {
    Limit,
    Full,
    Memory,
}

impl ShowFault {
    // Number, layer and place; want of memory has none.
    pub fn refusal(&self) -> Option<Refusal>
        ensures { result ≡ refusal_of self.now }
    {
        let number = match self {
            ShowFault::Limit => 31,
            ShowFault::Full => 32,
            ShowFault::Memory => return None,
        };
        Some(Refusal {
            number,
            layer: Layer::Showing,
            place: Place::Nowhere,
        })
    }
}

impl fmt::Display for ShowFault {
    ghost output = { λ f. Some (cause_of f) };

    fn fmt<W: fmt::Write>(&self, f: &mut fmt::Formatter<W>) -> fmt::Result {
        f.write_str(match self {
            ShowFault::Limit => "the monitor was shown a million events",
            ShowFault::Full => "the monitor is full",
            ShowFault::Memory => "memory is wanting",
        })
    }
}

impl Error for ShowFault {}

impl From<StepFault> for ShowFault {
    ghost from_gives = { λ f r. r ≡ turned f };

    fn from(fault: StepFault) -> ShowFault {
        match fault {
            StepFault::Full => ShowFault::Full,
            StepFault::Memory => ShowFault::Memory,
        }
    }
}

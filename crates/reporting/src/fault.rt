// Why a report is not written.
ghost use Rattle.std.specs.Prelude.{◌≡◌, Some};
ghost use Rattle.reporting.specs.Refusals.{refusal_of, cause_of};

use refusals::{Layer, Place, Refusal};
use std::error::Error;
use std::fmt;

// The caller's buffer has too little room for the longest report.
#[derive(Clone, Copy, PartialEq, Eq, Debug)]
pub enum ReportFault {
    ShortBuffer,
}

impl fmt::Display for ReportFault {
    ghost output = { λ f. Some (cause_of f) };

    fn fmt<W: fmt::Write>(&self, f: &mut fmt::Formatter<W>) -> fmt::Result {
        f.write_str(match self {
            ReportFault::ShortBuffer => "the buffer has no room for a report",
        })
    }
}

impl Error for ReportFault {}

impl From<ReportFault> for Refusal {
    ghost from_gives = { λ f r. r ≡ refusal_of f };

    fn from(fault: ReportFault) -> Refusal {
        match fault {
            ReportFault::ShortBuffer => Refusal {
                number: 22,
                layer: Layer::Report,
                place: Place::Nowhere,
            },
        }
    }
}

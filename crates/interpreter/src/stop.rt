// Why a command is not carried out.
ghost use Rattle.std.specs.Prelude.{◌≡◌};
ghost use Rattle.records.specs.Records.{record_refusal};
ghost use Rattle.lines.specs.Refusals.{line_refusal};
ghost use Rattle.loading.specs.Refusals.{refusal_of as rule_refusal};
ghost use Rattle.monitor.specs.Faults.{refusal_of as show_refusal};
ghost use Rattle.interpreter.specs.Stops.{stop_of};
ghost use Rattle.interpreter.specs.declared.stop.Stop.TheVariants.{Refused, Memory};

use lines::fault::LineFault;
use loading::fault::RuleFault;
use monitor::fault::ShowFault;
use records::RecordFault;
use refusals::Refusal;
use std::alloc::AllocError;

// It is refused, or memory is wanting.
#[derive(Clone, Copy)]
pub(crate) enum Stop {
    Refused(Refusal),
    Memory,
}

// One conversion for each fault, so that `?` serves every call: `map_err` at each would be no plainer.
impl From<LineFault> for Stop {
    ghost from_gives = { λ f r. r ≡ Refused (line_refusal f) };

    fn from(fault: LineFault) -> Stop {
        Stop::Refused(Refusal::from(fault))
    }
}

impl From<RecordFault> for Stop {
    ghost from_gives = { λ f r. r ≡ Refused (record_refusal f) };

    fn from(fault: RecordFault) -> Stop {
        Stop::Refused(Refusal::from(fault))
    }
}

impl From<RuleFault> for Stop {
    ghost from_gives = { λ f r. r ≡ Refused (rule_refusal f) };

    fn from(fault: RuleFault) -> Stop {
        Stop::Refused(Refusal::from(fault))
    }
}

impl From<ShowFault> for Stop {
    ghost from_gives = { λ f r. r ≡ stop_of (show_refusal f) };

    fn from(fault: ShowFault) -> Stop {
        fault.refusal().map_or(Stop::Memory, Stop::Refused)
    }
}

impl From<AllocError> for Stop {
    ghost from_gives = { λ _ r. r ≡ Memory };

    fn from(_: AllocError) -> Stop {
        Stop::Memory
    }
}

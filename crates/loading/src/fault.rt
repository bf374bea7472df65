// Why bytes are no rule: they cannot be read, or their nodes do not stand up to checking.
ghost use Rattle.std.specs.Prelude.{◌≡◌, Some};
ghost use Rattle.loading.specs.Refusals.{refusal_of, cause_of};
ghost use Rattle.loading.specs.declared.fault.RuleFault.TheVariants.{Read, Check};

use checking::fault::CheckFault;
use refusals::Refusal;
use rules::fault::ReadFault;
use std::fmt;

#[derive(Clone, Copy)]
pub enum RuleFault {
    Read(ReadFault),
    Check(CheckFault),
}

impl From<RuleFault> for Refusal {
    ghost from_gives = { λ f r. r ≡ refusal_of f };

    fn from(fault: RuleFault) -> Refusal {
        match fault {
            RuleFault::Read(fault) => fault.into(),
            RuleFault::Check(fault) => fault.into(),
        }
    }
}

impl RuleFault {
    // The cause in plain words, which unlike printing it cannot fail.
    pub fn cause(&self) -> &'static str
        ensures { result.now ≡ cause_of self.now }
    {
        match self {
            RuleFault::Read(fault) => fault.cause(),
            RuleFault::Check(fault) => fault.cause(),
        }
    }
}

impl fmt::Display for RuleFault {
    ghost output = { λ f. Some (cause_of f) };

    fn fmt<W: fmt::Write>(&self, f: &mut fmt::Formatter<W>) -> fmt::Result {
        f.write_str(self.cause())
    }
}

impl From<ReadFault> for RuleFault {
    ghost from_gives = { λ f r. r ≡ Read f };

    fn from(fault: ReadFault) -> RuleFault {
        RuleFault::Read(fault)
    }
}

impl From<CheckFault> for RuleFault {
    ghost from_gives = { λ f r. r ≡ Check f };

    fn from(fault: CheckFault) -> RuleFault {
        RuleFault::Check(fault)
    }
}

// Why judging stopped before the end of the log.
ghost use Rattle.std.specs.Prelude.{◌≡◌, Some};
ghost use Rattle.judging.specs.Refusals.{refusal_of, line_of, cause_of};
ghost use Rattle.judging.specs.declared.fault.JudgeFault.TheVariants.{BadLine};

use lines::fault::LogFault;
use monitor::fault::ShowFault;
use refusals::{Layer, Place, Refusal};
use std::fmt;

#[derive(Clone, Copy, PartialEq, Eq, Debug)]
pub enum JudgeFault {
    // The log has more bytes than are judged.
    TooLong,
    // A line cannot be read.
    BadLine(LogFault),
    // The monitor is full at the line with this number.
    Full(usize),
    // Memory is wanting at the line with this number.
    Memory(usize),
}

impl JudgeFault {
    // Number, layer and place; want of memory has none.
    pub fn refusal(&self) -> Option<Refusal>
        ensures { result ≡ refusal_of self.now }
    {
        match self {
            JudgeFault::TooLong => Some(Refusal {
                number: 14,
                layer: Layer::Judging,
                place: Place::Nowhere,
            }),
            JudgeFault::BadLine(fault) => Some(Refusal::from(*fault)),
            JudgeFault::Full(_) => ShowFault::Full.refusal(),
            JudgeFault::Memory(_) => ShowFault::Memory.refusal(),
        }
    }

    // The number of the line, from 1; a log that is too long is refused before its first line, at 0.
    pub fn line(&self) -> usize
        ensures { result ≡ line_of self.now }
    {
        match self {
            JudgeFault::TooLong => 0,
            JudgeFault::BadLine(fault) => fault.line.word.line,
            JudgeFault::Full(line) | JudgeFault::Memory(line) => *line,
        }
    }

    // The cause in plain words, which unlike printing it cannot fail.
    pub fn cause(&self) -> &'static str
        ensures { result.now ≡ cause_of self.now }
    {
        match self {
            JudgeFault::TooLong => "the log is over 65536 bytes",
            JudgeFault::BadLine(fault) => fault.line.word.cause.words(),
            JudgeFault::Full(_) => "the monitor is full",
            JudgeFault::Memory(_) => "memory is wanting",
        }
    }
}

impl fmt::Display for JudgeFault {
    ghost output = { λ f. Some (cause_of f) };

    fn fmt<W: fmt::Write>(&self, f: &mut fmt::Formatter<W>) -> fmt::Result {
        f.write_str(self.cause())
    }
}

impl From<LogFault> for JudgeFault {
    ghost from_gives = { λ f r. r ≡ BadLine f };

    fn from(fault: LogFault) -> JudgeFault {
        JudgeFault::BadLine(fault)
    }
}

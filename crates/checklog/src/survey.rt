// What a log holds, up to the first line that cannot be read.
ghost use Rattle.checklog.specs.Survey.{Surveyed};

use lines::fault::LogFault;
use lines::log::Lines;

// Line types are 0 to 47.
pub const TYPES: usize = 48;

// How many lines were read, how many events of each type they are, and what stopped the reading, if anything did.
#[derive(Clone, Copy)]
pub struct Survey {
    pub lines: usize,
    pub counts: [usize; TYPES],
    pub fault: Option<LogFault>,
}

impl Survey {
    pub fn of(log: &[u8]) -> Survey
        ensures { Surveyed log.now result }
    {
        let mut survey = Survey {
            lines: 0,
            counts: [0; TYPES],
            fault: None,
        };
        for line in Lines::of(log) {
            match line.read(log) {
                Ok(event) => {
                    survey.counts[usize::from(event.fields.ty)] += 1;
                    survey.lines += 1;
                }
                Err(fault) => {
                    survey.fault = Some(fault);
                    return survey;
                }
            }
        }
        survey
    }
}

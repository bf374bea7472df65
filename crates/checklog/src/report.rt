// What is printed of a survey.
ghost use Rattle.std.specs.Prelude.{Some};
ghost use Rattle.checklog.specs.Report.{type_text, counts_text, fault_in, report_text};

use crate::survey::Survey;
use lines::fault::LogFault;
use refusals::Refusal;
use refusals::text::Quoted;
use std::fmt;

// How many events of a type there were; a type that no event has is left out.
#[derive(Clone, Copy)]
struct Count {
    ty: usize,
    events: usize,
}

impl fmt::Display for Count {
    ghost output = { λ x. Some (type_text x.ty x.events) };

    fn fmt<W: fmt::Write>(&self, f: &mut fmt::Formatter<W>) -> fmt::Result {
        match *self {
            Count { events: 0, .. } => Ok(()),
            Count { ty, events } => writeln!(f, "type {ty}: {events}"),
        }
    }
}

// How many events of each type there were.
#[derive(Clone, Copy)]
struct Counts<'a>(&'a [usize]);

impl fmt::Display for Counts<'_> {
    ghost output = { λ x. Some (counts_text 0 x.0.now) };

    fn fmt<W: fmt::Write>(&self, f: &mut fmt::Formatter<W>) -> fmt::Result {
        for (ty, events) in self.0.iter().enumerate() {
            let count = Count {
                ty,
                events: *events,
            };
            write!(f, "{count}")?;
        }
        Ok(())
    }
}

// Where in the log the reading stopped, and why, if it did.
#[derive(Clone, Copy)]
struct Stop<'a> {
    log: &'a [u8],
    fault: Option<LogFault>,
}

impl fmt::Display for Stop<'_> {
    ghost output = { λ x. Some (fault_in x.log.now x.fault) };

    fn fmt<W: fmt::Write>(&self, f: &mut fmt::Formatter<W>) -> fmt::Result {
        let Some(fault) = self.fault else {
            return Ok(());
        };
        let Refusal { number, layer, .. } = fault.into();
        let word = fault.line.word;
        let line = word.line;
        let bytes = Quoted(word.span.part(self.log));
        let at = word.span.at;
        // Not a `Message`, which tells no line 0: nothing in a fault's type says that its line is not 0.
        writeln!(
            f,
            "line {line}: refused {number} {layer}: {fault} {bytes} at byte {at}"
        )
    }
}

// How many lines were read, how many events of each type there were, and then the fault, if there was one.
#[derive(Clone, Copy)]
pub struct Report<'a> {
    pub log: &'a [u8],
    pub survey: &'a Survey,
}

impl fmt::Display for Report<'_> {
    ghost output = { λ x. Some (report_text x.log.now x.survey.now) };

    fn fmt<W: fmt::Write>(&self, f: &mut fmt::Formatter<W>) -> fmt::Result {
        let lines = self.survey.lines;
        let counts = Counts(&self.survey.counts);
        let stop = Stop {
            log: self.log,
            fault: self.survey.fault,
        };
        write!(f, "lines {lines}\n{counts}{stop}")
    }
}

#[cfg(test)]
mod tests {
    use super::*;
    use std::test::Fail;

    #[test]
    fn line_that_cannot_be_read(rt: HostRuntime) -> Result<(), Fail> {
        let log = b"1 c7\n2 p3 c07\n1 c8\n";
        let survey = Survey::of(log);
        let report = Report {
            log,
            survey: &survey,
        };
        assert_eq!(rt;
            report.to_string(rt.alloc())?.as_str(),
            "lines 1\ntype 1: 1\nline 2: refused 12 word: bad or missing word \"c07\" at byte 10\n"
        );
        Ok(())
    }
}

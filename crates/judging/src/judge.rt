// Judging a log by a rule.
ghost use Rattle.std.specs.Prelude.{◌≡◌, ◌≢◌, ◌<◌, List, IfOk};
ghost use Rattle.std.specs.Result.{result_err};
ghost use Rattle.calculus.specs.Runs.{begin};
ghost use Rattle.calculus.specs.Vocabulary.{Rule as R, Meaning};
ghost use Rattle.monitor.specs.Uses.{run_of, Begins};
ghost use Rattle.judging.specs.Judging.{Judges, Alone};
ghost use Rattle.judging.specs.Watching.{Watches, Passes, Went, Tells, StopsAt};

use crate::fault::JudgeFault;
use crate::judgement::Judgement;
use checking::rule::Rule;
use events::derived::{Derived, Entries};
use lines::line::Line;
use lines::log::{Lines, LogLine};
use monitor::Monitor;
use monitor::fault::ShowFault;
use std::alloc::{AllocError, Global};

// The most bytes of a log that is judged.
pub const MOST_BYTES: usize = 65_536;

// Begins a monitor of its own on the rule, and shows it each line of the log under the entries, up to the first fault. A break is no
// fault. The judgement is one that fits the log (`Judges`), and where memory suffices no other does (`Alone`). Only where there is no
// memory to begin with is there none.
pub fn judge(
    heap: Global,
    rule: &Rule,
    entries: &Entries,
    log: &[u8],
) -> Result<Judgement, AllocError>
    ensures judges { IfOk result (λ j. Judges rule.now entries.now log.now j) }
    ensures alone { IfOk result (λ j. Alone rule.now entries.now log.now j) }
{
    let monitor = Monitor::begin(heap, rule)?;
    let judging = Judging { heap, entries, log };
    Ok(judging.by(monitor))
}

// A log whose lines are events under some entries, and the memory to judge it in.
#[derive(Clone, Copy)]
struct Judging<'a> {
    heap: Global,
    entries: &'a Entries,
    log: &'a [u8],
}

impl Judging<'_> {
    // Judges the log by a monitor that was just begun.
    fn by(&self, mut monitor: Monitor) -> Judgement
        requires { run_of monitor ≡ begin }
        ensures judges { (rule : R) → Begins rule monitor → Judges rule self.now.entries.now self.now.log.now result }
        ensures alone { (rule : R) → Begins rule monitor → Alone rule self.now.entries.now self.now.log.now result }
    {
        let shown = self.show_log(&mut monitor);
        told(&monitor, shown)
    }

    // Shows a fresh monitor the lines of the log, one after the other, unless there are too many bytes.
    fn show_log(&self, monitor: &mut Monitor) -> Result<(), JudgeFault>
        requires { run_of monitor.old ≡ begin }
        ensures { Went monitor.old.rule self.now.entries.now self.now.log.now monitor.new result }
    {
        if self.log.len() > MOST_BYTES {
            return Err(JudgeFault::TooLong);
        }
        for line in Lines::of(self.log) {
            self.show_line(monitor, line)?;
        }
        Ok(())
    }

    // Shows one line of the log, as an event under the entries.
    fn show_line(&self, monitor: &mut Monitor, line: LogLine) -> Result<(), JudgeFault>
        requires { monitor.old.shown < 1000000 }
        ensures { (rule : R) (es : List Meaning) → Watches rule es monitor.old → Passes rule self.now.entries.now self.now.log.now line es monitor.new result }
    {
        let event = self.event(line.read(self.log)?);
        monitor
            .show(self.heap, &event)
            .map_err(|fault| stopped_at(line, fault))
    }

    // A line under the entries.
    fn event(&self, below: Line) -> Derived<Line>
        ensures { result ≡ record { below = below; entries = self.now.entries.now } }
    {
        Derived {
            below,
            entries: *self.entries,
        }
    }
}

// Why judging stops at a line whose event is not shown. A log has fewer lines than a monitor can be shown, so the limit is not met.
fn stopped_at(line: LogLine, fault: ShowFault) -> JudgeFault
    requires { fault ≢ ShowFault.Limit }
    ensures { StopsAt line fault result }
{
    match fault {
        ShowFault::Full => JudgeFault::Full(line.number),
        ShowFault::Memory => JudgeFault::Memory(line.number),
        ShowFault::Limit => unreachable!(),
    }
}

// What a monitor answers once lines were shown, and the fault that ended it, if one did.
fn told(monitor: &Monitor, shown: Result<(), JudgeFault>) -> Judgement
    ensures { (rule : R) (es : List Meaning) → Watches rule es monitor.now → Tells rule es (result_err shown) result }
{
    Judgement {
        counts: monitor.counts(),
        verdict: monitor.verdict(),
        fault: shown.err(),
    }
}

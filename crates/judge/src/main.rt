// Judges the log on standard input by the rule in `rule.bin`, and prints the report. What is wrong with the rule or the log goes to
// standard error.
#![tactic(auto)]

use events::derived::Entries;
use judging::fault::JudgeFault;
use judging::judge::judge;
use judging::judgement::Judgement;
use loading::fault::RuleFault;
use loading::load;
use refusals::Refusal;
use refusals::message::Message;
use reporting::excerpt::excerpt;
use reporting::report::{ROOM, report};
use std::fs;
use std::io::{Read, Write};
use std::process::ExitCode;

// Why the bytes are no rule.
fn tell_rule(rt: &HostRuntime, bytes: &[u8], fault: RuleFault) -> anyhow::Result<()> {
    let refusal = Refusal::from(fault);
    let message = Message {
        line: 0,
        refusal,
        cause: fault,
        part: excerpt(bytes, b"", &refusal),
    };
    eprint!(rt; "rule.bin: {message}")?;
    Ok(())
}

// The report of a judgement.
fn tell_report(rt: &HostRuntime, judgement: &Judgement) -> anyhow::Result<()> {
    // A report is written into a buffer that its caller lends.
    let mut buffer = [0u8; ROOM];
    let counts = judgement.counts;
    let length = report(&mut buffer, counts.shown, counts.taken, judgement.verdict).unwrap();
    rt.stdout().write_all(&buffer[..length])?;
    Ok(())
}

// Why judging stopped before the end of the log.
fn tell_fault(rt: &HostRuntime, rule: &[u8], log: &[u8], fault: JudgeFault) -> anyhow::Result<()> {
    let line = fault.line();
    let Some(refusal) = fault.refusal() else {
        eprintln!(rt; "line {line}: {fault}")?;
        return Ok(());
    };
    let message = Message {
        line,
        refusal,
        cause: fault,
        part: excerpt(rule, log, &refusal),
    };
    eprint!(rt; "{message}")?;
    Ok(())
}

// Ends with status 1 where the rule is refused or the log is faulty; a broken play is no fault.
fn main(rt: HostRuntime) -> anyhow::Result<ExitCode> {
    let bytes = fs::read(&rt, "rule.bin")?;
    let rule = match load(&bytes) {
        Ok(rule) => rule,
        Err(fault) => {
            tell_rule(&rt, &bytes, fault)?;
            return Ok(ExitCode::FAILURE);
        }
    };
    let mut log = Vec::new(rt.alloc());
    rt.stdin().read_to_end(&mut log)?;
    let judgement = judge(rt.alloc(), &rule, &Entries::NONE, &log)?;
    tell_report(&rt, &judgement)?;
    let Some(fault) = judgement.fault else {
        return Ok(ExitCode::SUCCESS);
    };
    tell_fault(&rt, &bytes, &log, fault)?;
    Ok(ExitCode::FAILURE)
}

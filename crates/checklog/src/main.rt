// Reads a day's log from standard input, and tells whether every line can be read and what events it holds.
#![tactic(auto)]

mod report;
mod survey;

use report::Report;
use std::io::Read;
use std::process::ExitCode;
use survey::Survey;

// Ends with status 1 where a line cannot be read.
fn main(rt: HostRuntime) -> anyhow::Result<ExitCode> {
    let mut log = Vec::new(rt.alloc());
    rt.stdin().read_to_end(&mut log)?;
    let log = log.as_slice();
    let survey = Survey::of(log);
    rt.print(Report {
        log,
        survey: &survey,
    })?;
    match survey.fault {
        None => Ok(ExitCode::SUCCESS),
        Some(_) => Ok(ExitCode::FAILURE),
    }
}

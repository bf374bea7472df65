// What is answered to a command.
use calculus::verdict::Verdict;
use commands::command::Usage;
use judging::judgement::Judgement;
use monitor::Counts;
use refusals::Refusal;

#[derive(Drop)]
pub enum Reply {
    // A rule with so many nodes is in force.
    Rule(u8),
    // An entry was set.
    Done,
    // An event was shown.
    Shown,
    Counts(Counts),
    Verdict(Verdict),
    // How many cells each state has that is held, in rising order.
    Held(Vec<usize>),
    Judged(Judgement),
    // The bytes that a fault lies in.
    Part(Vec<u8>),
    Help,
    Refused(Refusal),
    // The command was not in this form.
    Expected(Usage),
}

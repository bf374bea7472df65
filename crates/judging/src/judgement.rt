// What judging a log came to.
use crate::fault::JudgeFault;
use calculus::verdict::Verdict;
use monitor::Counts;

// The counts and the verdict so far, and what stopped the judging, if anything did.
#[derive(Clone, Copy)]
pub struct Judgement {
    pub counts: Counts,
    pub verdict: Verdict,
    pub fault: Option<JudgeFault>,
}

// Commands over the whole library: a rule in force, entries for derived types, and a monitor.
#![tactic(auto)]

use checking::rule::Rule;
use events::derived::Entries;
use monitor::Monitor;

pub mod answering;
mod sizes;
mod stop;

// The rule in force, the entries that events are shown under, and the monitor that they are shown to.
#[derive(Drop)]
pub struct Interpreter {
    rule: Rule,
    entries: Entries,
    monitor: Monitor,
}

// A play: events shown to a monitor, and how many of them it refused.
use checking::rule::Rule;
use events::event::Event;
use monitor::Monitor;
use monitor::fault::ShowFault;
use std::alloc::{AllocError, Global};

#[derive(Drop)]
pub(crate) struct Play {
    heap: Global,
    monitor: Monitor,
    pub(crate) refused: u32,
}

impl Play {
    // Begins a play by a rule.
    pub(crate) fn begin(heap: Global, rule: &Rule) -> Result<Play, AllocError> {
        let monitor = Monitor::begin(heap, rule)?;
        Ok(Play {
            heap,
            monitor,
            refused: 0,
        })
    }

    // Shows an event, and counts it where it is refused; only want of memory is passed on.
    pub(crate) fn show<E: Event>(&mut self, event: &E) -> Result<(), ShowFault> {
        match self.monitor.show(self.heap, event) {
            Err(ShowFault::Full | ShowFault::Limit) => {
                self.refused = self.refused.saturating_add(1);
                Ok(())
            }
            shown => shown,
        }
    }

    // Prints what the play comes to.
    pub(crate) fn tell(&self, rt: &HostRuntime, name: &str) -> anyhow::Result<()> {
        let counts = self.monitor.counts();
        let verdict = self.monitor.verdict();
        let refused = self.refused;
        println!(rt; "{name}: {counts} {verdict}, {refused} refused")?;
        Ok(())
    }
}

// A stretch of slots, written to one table.
ghost use Rattle.std.specs.Prelude.{◌≡◌, MatchResult, ◌+◌, ◌<◌, length};
ghost use Rattle.state.specs.State.{Found};
ghost use Rattle.state.specs.Engine.{plenty, Instant, Stretched, CutOff};

use crate::engine::Engine;
use crate::step::{Missed, Now};
use state::Job;

impl Engine<'_> {
    // A slot for each entry of the table, or those before the first miss. (Why `Instant` stands in the clauses: engine.rt.)
    pub(crate) fn stretch(
        self,
        jobs: &mut [Job],
        table: &mut [u8],
        start: Now,
    ) -> Result<Now, Missed>
        requires instant { Found (length self.tasks.now) start.chosen (Instant self.policy self.tasks.now start.instant jobs.old) }
        requires counts { (start.idle ≡ 0) × (start.preemptions ≡ 0) }
        requires room { start.instant + length table.old < plenty }
        ensures { MatchResult result (λ r. Found (length self.entry.tasks.now) r.chosen (Stretched self.entry.policy self.entry.tasks.now start.instant (length table.old) table.old table.new r.idle r.preemptions jobs.new) × (r.instant ≡ start.instant + length table.old)) (λ m. CutOff self.entry.policy self.entry.tasks.now start.instant (length table.old) table.old table.new m.task m.at) }
    {
        let mut now = start;
        for entry in table.iter_mut() {
            now = self.step(jobs, entry, now)?;
        }
        Ok(now)
    }
}

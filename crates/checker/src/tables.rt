// Both tables, and the plan that they lead to.
ghost use Rattle.std.specs.Prelude.{◌≡◌, MatchResult, ◌+◌, ◌≤◌, ◌<◌, length};
ghost use Rattle.card.specs.declared.Card.TheVariants.{Wide};
ghost use Rattle.answer.specs.Answers.{missed, feasible};
ghost use Rattle.answer.specs.Promise.{Permitted};
ghost use Rattle.state.specs.State.{Found};
ghost use Rattle.state.specs.Engine.{plenty, NotRefused, Instant, Stretched, CutOff, Ready};

use crate::engine::Engine;
use crate::step::{Missed, Now};
use admission::Measures;
use answer::Plan;
use state::Job;

impl Engine<'_> {
    // M + H slots, and H more: the misses at M + 2H are noted, and slot M + 2H is chosen, for the last preemption, but not written.
    pub(crate) fn tables(
        self,
        jobs: &mut [Job],
        measures: Measures,
        startup: &mut [u8],
        cycle: &mut [u8],
    ) -> Result<Plan, Missed>
        requires sized { length jobs.old ≡ length self.tasks.now }
        requires ready { Ready self.tasks.now startup.old cycle.old measures.latest measures.hyperperiod measures.load }
        ensures { MatchResult result (λ q. Permitted Wide self.entry.policy self.entry.tasks.now startup.old cycle.old (feasible q) startup.new cycle.new) (λ m. Permitted Wide self.entry.policy self.entry.tasks.now startup.old cycle.old (missed m.task m.at) startup.new cycle.new) }
    {
        let first = self.startup_part(jobs, startup, measures.latest + measures.hyperperiod)?;
        let again = self.cycle_part(jobs, cycle, measures.hyperperiod, first)?;
        Ok(Plan {
            latest: measures.latest,
            hyperperiod: measures.hyperperiod,
            load: measures.load,
            startup_idle: first.idle,
            cycle_idle: again.idle,
            startup_preemptions: first.preemptions,
            cycle_preemptions: again.preemptions,
        })
    }

    // The startup part: so many slots from 0 on.
    fn startup_part(self, jobs: &mut [Job], startup: &mut [u8], count: usize) -> Result<Now, Missed>
        requires sized { length jobs.old ≡ length self.tasks.now }
        requires not_refused { NotRefused self.tasks.now }
        requires room { (count < plenty) × (count ≤ length startup.old) }
        ensures { MatchResult result (λ r. Found (length self.entry.tasks.now) r.chosen (Stretched self.entry.policy self.entry.tasks.now 0 count startup.old startup.new r.idle r.preemptions jobs.new) × (r.instant ≡ count)) (λ m. CutOff self.entry.policy self.entry.tasks.now 0 count startup.old startup.new m.task m.at) }
    {
        let now = self.begin(jobs);
        self.stretch(jobs, &mut startup[..count], now)
    }

    // The cycle part: so many slots from where the startup part ends. (Why `Instant` stands in the clauses: engine.rt.)
    fn cycle_part(
        self,
        jobs: &mut [Job],
        cycle: &mut [u8],
        count: usize,
        first: Now,
    ) -> Result<Now, Missed>
        requires instant { Found (length self.tasks.now) first.chosen (Instant self.policy self.tasks.now first.instant jobs.old) }
        requires room { (first.instant + count < plenty) × (count ≤ length cycle.old) }
        ensures { MatchResult result (λ r. Found (length self.entry.tasks.now) r.chosen (Stretched self.entry.policy self.entry.tasks.now first.instant count cycle.old cycle.new r.idle r.preemptions jobs.new)) (λ m. CutOff self.entry.policy self.entry.tasks.now first.instant count cycle.old cycle.new m.task m.at) }
    {
        let now = Now {
            idle: 0,
            preemptions: 0,
            ..first
        };
        self.stretch(jobs, &mut cycle[..count], now)
    }
}

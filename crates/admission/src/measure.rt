// M, H and L of a list. Document 01, "How far to look".
// Not for other crates: `admit` checks what these ask for.
ghost use Rattle.std.specs.Prelude.{◌≡◌, ◌≤◌, length};
ghost use Rattle.card.specs.declared.Card.TheVariants.{Wide};
ghost use Rattle.task.specs.Limits.{most_tasks, longest_hyperperiod};
ghost use Rattle.divisor.specs.Divisors.{within};
ghost use Rattle.task.specs.Tasks.{latest, hyperperiod, load};
ghost use Rattle.refusal.specs.Refusals.{sound};
ghost use Rattle.task.specs.Checks.{tasks_refusal};

use divisor::lcm;
use task::Task;

// The largest offset.
pub(crate) fn latest(tasks: &[Task]) -> usize
    ensures { result ≡ latest tasks.now }
{
    tasks.iter().map(|task| task.offset).max().unwrap_or(0)
}

// The least common multiple of all periods. Once it is above the limit it stays there, so the fold ends early.
#[tactic(auto, using(crate::proofs::Listed::ends_early))]
pub(crate) fn hyperperiod(tasks: &[Task]) -> Option<usize>
    requires { tasks_refusal Wide 0 tasks.now ≡ sound }
    ensures { result ≡ within longest_hyperperiod (hyperperiod tasks.now) }
{
    let mut whole: usize = 1;
    for task in tasks {
        whole = lcm(whole, task.period, Task::LONGEST_HYPERPERIOD)?;
    }
    Some(whole)
}

// The slots that all tasks want in `whole` instants.
pub(crate) fn load(tasks: &[Task], whole: usize) -> usize
    requires few { length tasks.now ≤ most_tasks }
    requires no_refusal { tasks_refusal Wide 0 tasks.now ≡ sound }
    requires limited { whole ≤ longest_hyperperiod }
    ensures { result ≡ load tasks.now whole }
{
    tasks
        .iter()
        .map(|task| task.run * (whole / task.period))
        .sum()
}

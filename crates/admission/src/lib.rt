// Which list is checked further, and what it measures. Document 01, "What comes back".
#![tactic(auto)]

mod measure;

ghost use Rattle.std.specs.Prelude.{◌≡◌, List, ◌<◌, ◌≤◌, length};
ghost use Rattle.task.specs.declared.Task.{Task};
ghost use Rattle.task.specs.Limits.{most_tasks};
ghost use Rattle.task.specs.Arrays.{Holds};
ghost use Rattle.refusal.specs.Refusals.{finding_of};
ghost use Rattle.task.specs.Checks.{tasks_refusal};
ghost use Rattle.admission.specs.Admissions.{Admits};

use card::Card;
use refusal::{Refusal, Refused};
use task::Task;
use task::list::Tasks;

// M, H and L.
#[derive(Clone, Copy, Debug, PartialEq, Eq)]
pub struct Measures {
    pub latest: usize,
    pub hyperperiod: usize,
    pub load: usize,
}

// The measures of a list, or the first refusal of it for a card and two buffer lengths.
pub fn admit(list: Tasks, card: Card, startup: usize, cycle: usize) -> Result<Measures, Refused>
    ensures { (l : List Task) → Holds list l → Admits card l startup cycle result }
{
    if list.count == 0 || Task::MOST < list.count {
        return Err(whole(Refusal::Count));
    }
    measured(&list.items[..list.count], card, startup, cycle)
}

// Refusals 2, 9, 3, 4 and 5, task by task, then 6, 7 and 8, and then the measures.
fn measured(tasks: &[Task], card: Card, startup: usize, cycle: usize) -> Result<Measures, Refused>
    requires { (0 < length tasks.now) × (length tasks.now ≤ most_tasks) }
    ensures { Admits card tasks.now startup cycle result }
{
    check_all(tasks, card)?;
    let hyperperiod = measure::hyperperiod(tasks).ok_or(whole(Refusal::Hyperperiod))?;
    let latest = measure::latest(tasks);
    if startup < latest + hyperperiod {
        return Err(whole(Refusal::Startup));
    }
    if cycle < hyperperiod {
        return Err(whole(Refusal::Cycle));
    }
    let load = measure::load(tasks, hyperperiod);
    Ok(Measures {
        latest,
        hyperperiod,
        load,
    })
}

// The first refusal of a task by itself.
fn check_all(tasks: &[Task], card: Card) -> Result<(), Refused>
    ensures { finding_of result ≡ tasks_refusal card 0 tasks.now }
{
    for (number, task) in tasks.iter().enumerate() {
        task.check(card, number)?;
    }
    Ok(())
}

// A refusal of the whole list: it has task 0.
fn whole(why: Refusal) -> Refused
    ensures { result ≡ record { why = why; task = 0 } }
{
    Refused { why, task: 0 }
}

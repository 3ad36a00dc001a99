// A card, a policy and a list, read from words.
ghost use Rattle.std.specs.Prelude.{◌≡◌};
ghost use Rattle.task.specs.Arrays.{array_of};
ghost use Rattle.words.specs.Words.{card_of, policy_of, tasks_of};
ghost use Rattle.words.specs.Reading.{named, task_at};

use card::Card;
use schedule::Policy;
use task::Task;
use task::list::Tasks;

// The words of a task: O, C, D, T.
pub const EACH: usize = 4;

pub const WIDE: u64 = 0;

pub const LAST_CARD: u64 = 1;

pub const LAST_POLICY: u64 = 3;

// 0 wide, 1 small. Total, since callers from outside may stand on it: `understood` says which numbers name a card and a policy.
pub fn card_of(number: u64) -> Card
    ensures { result ≡ card_of number }
{
    match number {
        WIDE => Card::Wide,
        _ => Card::Small,
    }
}

// 0 list order, 1 rate monotonic, 2 deadline monotonic, 3 earliest deadline first. Total, as `card_of`.
pub fn policy_of(number: u64) -> Policy
    ensures { result ≡ policy_of number }
{
    match number {
        0 => Policy::ListOrder,
        1 => Policy::RateMonotonic,
        2 => Policy::DeadlineMonotonic,
        _ => Policy::Edf,
    }
}

// The card and the policy that two numbers name, where each names one.
pub fn understood(card: u64, policy: u64) -> Option<(Card, Policy)>
    ensures { result ≡ named card policy }
{
    if LAST_CARD < card || LAST_POLICY < policy {
        return None;
    }
    Some((card_of(card), policy_of(policy)))
}

// The checker's own array of the tasks of a list of words. No more are read than it has room for.
pub fn tasks_of(list: &[u64]) -> Tasks
    ensures { result ≡ array_of (tasks_of list.now) }
{
    let (tasks, _) = list.as_chunks::<EACH>();
    let room = Tasks::room(tasks.len());
    let mut own = Tasks::sized(tasks.len());
    for (i, words) in tasks[..room].iter().enumerate() {
        own = own.put(i, task_of(*words));
    }
    own
}

fn task_of(words: [u64; EACH]) -> Task
    ensures { result ≡ task_at words 0 }
{
    let [offset, run, deadline, period] = words;
    Task::new(
        offset as usize,
        run as usize,
        deadline as usize,
        period as usize,
    )
}

// A list that is lent by the caller and only read. Document 01, "What a task list says".
#![tactic(auto)]

ghost use Rattle.std.specs.Prelude.{◌≡◌};
ghost use Rattle.task.specs.Arrays.{array_of};
ghost use Rattle.answer.specs.Promise.{Promised};

use answer::Answer;
use card::Card;
use schedule::Policy;
use task::Task;
use task::list::Tasks;

// As `checker::check`, for a lent list of any length, with as many parameters, for the same reason.
pub fn check(
    list: &[Task],
    card: Card,
    policy: Policy,
    startup: &mut [u8],
    cycle: &mut [u8],
) -> Answer
    ensures { Promised card policy list.now startup.old cycle.old result startup.new cycle.new }
{
    checker::check(load(list), card, policy, startup, cycle)
}

// The checker's own copy. No more tasks are read than it has room for.
pub fn load(list: &[Task]) -> Tasks
    ensures { result ≡ array_of list.now }
{
    let count = list.len();
    let room = Tasks::room(count);
    let mut items = Tasks::sized(count).items;
    items[..room].copy_from_slice(&list[..room]);
    Tasks { items, count }
}

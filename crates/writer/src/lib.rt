// The text of a list, written. Requests #101 and #105.
#![tactic(auto)]

mod lay;

ghost use Rattle.std.specs.Prelude.{◌≡◌, List};
ghost use Rattle.task.specs.declared.Task.{Task};
ghost use Rattle.task.specs.Arrays.{Holds};
ghost use Rattle.writer.specs.Writing.{SavedAs, saved_number};

use card::Card;
use lay::Input;
use schedule::Policy;
use task::Task;
use task::list::Tasks;

// The list can't be written as text, or the text does not fit.
#[derive(Clone, Copy, Debug, PartialEq, Eq)]
pub struct Unwritable;

impl Unwritable {
    // The request's number.
    pub fn number(self) -> usize
        ensures { result ≡ saved_number (Err self) }
    {
        13
    }
}

// Writes the text of a policy, a card and a list, and answers its length, unless the list can't be written or the text does not fit.
pub fn write(list: Tasks, card: Card, policy: Policy, out: &mut [u8]) -> Result<usize, Unwritable>
    ensures { (l : List Task) → Holds list l → SavedAs card policy l out.old result out.new }
{
    if Task::MOST < list.count {
        return Err(Unwritable);
    }
    let tasks = &list.items[..list.count];
    if lay::any_large(tasks) {
        return Err(Unwritable);
    }
    let text = Input {
        policy,
        card,
        tasks,
    };
    decimal::write(&text, out).ok_or(Unwritable)
}

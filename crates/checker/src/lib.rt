// The checker: a list, its card, a policy and two lent buffers in, the answer and the tables out. Document 01, "What comes back".
#![tactic(auto)]

mod choice;
mod engine;
mod judge;
mod release;
mod start;
mod step;
mod stretch;
mod tables;

ghost use Rattle.std.specs.Prelude.{List};
ghost use Rattle.task.specs.declared.Task.{Task};
ghost use Rattle.task.specs.Arrays.{Holds};
ghost use Rattle.answer.specs.Promise.{Promised};

use crate::engine::Engine;
use answer::Answer;
use card::Card;
use schedule::Policy;
use task::list::Tasks;

// Whether no deadline is ever missed, for all time, and the tables of the schedule. README and the C interface name list, card, policy and the two
// buffers one by one, so they are no struct here either, nor in what this calls.
pub fn check(
    list: Tasks,
    card: Card,
    policy: Policy,
    startup: &mut [u8],
    cycle: &mut [u8],
) -> Answer
    ensures { (l : List Task) → Holds list l → Promised card policy l startup.old cycle.old result startup.new cycle.new }
{
    let admitted = admission::admit(list, card, startup.len(), cycle.len());
    match admitted {
        Err(refused) => Answer::Refused(refused.why, refused.task),
        Ok(measures) => {
            let tasks = &list.items[..list.count];
            Engine { policy, tasks }.judged(measures, startup, cycle)
        }
    }
}

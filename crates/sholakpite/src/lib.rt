// For callers in C and Rust: the checker over words, over task structs and over texts, and the log of plans. include/sholakpite.h says the same for C.
#![tactic(auto)]

mod logs;
mod texts;

ghost use Rattle.std.specs.Prelude.{◌≡◌, cond, Some, None};
ghost use Rattle.task.specs.Arrays.{array_of};
ghost use Rattle.words.specs.Words.{Answered, AnsweredWords, wide_card, tasks_of, ragged};

use task::Task;
use task::list::Tasks;
use words::list::tasks_of;
use words::{NOT_UNDERSTOOD, answered, list};

// Checks a list of words, O C D T for each task, for a card and under a policy, both by number, and gives the answer's code; its values go into `row`.
#[unsafe(no_mangle)]
pub extern "C" fn sholakpite_check_card(
    card: u64,
    policy: u64,
    list: &[u64],
    startup: &mut [u8],
    cycle: &mut [u8],
    row: &mut [u64],
) -> u64
    ensures { AnsweredWords card policy list.now startup.old cycle.old row.old result startup.new cycle.new row.new }
{
    let Some(own) = whole(list) else {
        return NOT_UNDERSTOOD;
    };
    answered(own, card, policy, startup, cycle, row)
}

// The same, for a wide card: C callers from before there were cards have this name.
#[unsafe(no_mangle)]
pub extern "C" fn sholakpite_check(
    policy: u64,
    list: &[u64],
    startup: &mut [u8],
    cycle: &mut [u8],
    row: &mut [u64],
) -> u64
    ensures { AnsweredWords wide_card policy list.now startup.old cycle.old row.old result startup.new cycle.new row.new }
{
    sholakpite_check_card(list::WIDE, policy, list, startup, cycle, row)
}

// For a lent list of task structs.
#[unsafe(no_mangle)]
pub extern "C" fn sholakpite_check_tasks_card(
    card: u64,
    policy: u64,
    list: &[Task],
    startup: &mut [u8],
    cycle: &mut [u8],
    row: &mut [u64],
) -> u64
    ensures { Answered card policy list.now startup.old cycle.old row.old result startup.new cycle.new row.new }
{
    answered(lent::load(list), card, policy, startup, cycle, row)
}

// For a lent list of task structs, and a wide card: C callers from before there were cards have this name.
#[unsafe(no_mangle)]
pub extern "C" fn sholakpite_check_tasks(
    policy: u64,
    list: &[Task],
    startup: &mut [u8],
    cycle: &mut [u8],
    row: &mut [u64],
) -> u64
    ensures { Answered wide_card policy list.now startup.old cycle.old row.old result startup.new cycle.new row.new }
{
    sholakpite_check_tasks_card(list::WIDE, policy, list, startup, cycle, row)
}

// The tasks of a list of words, where no word is left over.
fn whole(list: &[u64]) -> Option<Tasks>
    ensures { result ≡ cond (ragged list.now) None (Some (array_of (tasks_of list.now))) }
{
    if list.len() % list::EACH != 0 {
        return None;
    }
    Some(tasks_of(list))
}

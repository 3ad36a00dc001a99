// A call in words, and its answer: what the entries for C and Rust stand on.
#![tactic(auto)]

pub mod list;
mod row;

ghost use Rattle.std.specs.Prelude.{List};
ghost use Rattle.task.specs.declared.Task.{Task};
ghost use Rattle.task.specs.Arrays.{Holds};
ghost use Rattle.words.specs.Words.{Answered};

use crate::list::understood;
use crate::row::tell;
use task::list::Tasks;

// The code of a call that is not understood; then nothing is written.
pub const NOT_UNDERSTOOD: u64 = 4;

// Checks a list for a card under a policy, both by number, and gives the answer's code; its values go into `row`. The parameters are those of C.
pub fn answered(
    own: Tasks,
    card: u64,
    policy: u64,
    startup: &mut [u8],
    cycle: &mut [u8],
    row: &mut [u64],
) -> u64
    ensures { (l : List Task) → Holds own l → Answered card policy l startup.old cycle.old row.old result startup.new cycle.new row.new }
{
    let Some((card, policy)) = understood(card, policy) else {
        return NOT_UNDERSTOOD;
    };
    if row.len() < row::LENGTH {
        return NOT_UNDERSTOOD;
    }
    let answer = checker::check(own, card, policy, startup, cycle);
    tell(answer, row)
}

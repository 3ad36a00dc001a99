// The answer, written as words.
ghost use Rattle.std.specs.Prelude.{◌≡◌, ◌≤◌, ◌++◌, length, drop};
ghost use Rattle.answer.specs.Answers.{row as row_of};
ghost use Rattle.words.specs.Words.{code, row_length, written};

use answer::Answer;

// The words that the caller lends for an answer.
pub(crate) const LENGTH: usize = 8;

// Writes the answer's values, in the paper's order, and gives its code, a number for C.
pub(crate) fn tell(answer: Answer, row: &mut [u64]) -> u64
    requires { row_length ≤ length row.old }
    ensures { (result ≡ code (row_of answer)) × (row.new ≡ written (row_of answer) row.old) }
{
    match answer {
        Answer::Feasible(plan) => {
            let values = [
                plan.latest as u64,
                plan.hyperperiod as u64,
                plan.load as u64,
                plan.startup_idle as u64,
                plan.cycle_idle as u64,
                plan.startup_preemptions as u64,
                plan.cycle_preemptions as u64,
            ];
            put(&values, row);
            0
        }
        Answer::Missed { task, at } => {
            put(&[task as u64, at as u64], row);
            1
        }
        Answer::Overloaded { load, hyperperiod } => {
            put(&[load as u64, hyperperiod as u64], row);
            2
        }
        Answer::Refused(why, task) => {
            put(&[why.number() as u64, task as u64], row);
            3
        }
    }
}

// The row's first words; those after them keep their values.
fn put(values: &[u64], row: &mut [u64])
    requires { length values.now ≤ length row.old }
    ensures { row.new ≡ values.now ++ drop (length values.now) row.old }
{
    row[..values.len()].copy_from_slice(values);
}

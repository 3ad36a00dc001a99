// What is printed for an input: any bytes, of any length. Requests #101 and #105.
#![tactic(auto)]

ghost use Rattle.std.specs.Prelude.{◌≡◌, List};
ghost use Rattle.task.specs.declared.Task.{Task};
ghost use Rattle.task.specs.Arrays.{Holds};
ghost use Rattle.decimal.specs.Bytes.{bytes};
ghost use Rattle.report.specs.Report.{one};
ghost use Rattle.text.specs.Reading.{reading, listed};
ghost use Rattle.output.specs.Output.{Printed, longest_startup, longest_cycle, longest_output};

use answer::IDLE;
use decimal::{Page, Text};
use report::lay;
use task::Task;
use text::Listed;

// Buffers of these lengths have room for the tables of every list.
const STARTUP: usize = Task::LATEST_OFFSET + Task::LONGEST_HYPERPERIOD;

const CYCLE: usize = Task::LONGEST_HYPERPERIOD;

// No output is longer.
pub const LONGEST_OUTPUT: usize = 147_547;

// Reads an input, checks the list, and writes the output; None, with nothing written, where `out` is shorter.
pub fn answer(input: &[u8], out: &mut [u8]) -> Option<usize>
    ensures { Printed (reading input.now) out.old result out.new }
{
    match text::read(input) {
        Ok(list) => checked(list, out),
        Err(unread) => decimal::write(&UnreadLine { line: unread.line }, out),
    }
}

fn checked(list: Listed, out: &mut [u8]) -> Option<usize>
    ensures { (l : List Task) → Holds list.tasks l → Printed (listed list.card list.policy l) out.old result out.new }
{
    let mut startup = [IDLE; STARTUP];
    let mut cycle = [IDLE; CYCLE];
    let said = checker::check(list.tasks, list.card, list.policy, &mut startup, &mut cycle);
    report::report(said, &startup, &cycle, out)
}

// A line that can't be read, said by its number.
#[derive(Clone, Copy)]
struct UnreadLine {
    line: usize,
}

impl Text for UnreadLine {
    ghost text = { λ u. one (bytes "unread") u.line };

    fn lay(&self, page: &mut Page) {
        lay::line(page, b"unread", &[self.line]);
    }
}

// Ties the lengths to the numbers of specs/.
fn limits()
    ensures startup { STARTUP ≡ longest_startup }
    ensures cycle { CYCLE ≡ longest_cycle }
    ensures output { LONGEST_OUTPUT ≡ longest_output }
{}

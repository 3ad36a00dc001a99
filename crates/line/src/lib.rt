// A line of a text: its fields, its numbers, and the three kinds of lines. Requests #101 and #105.
#![tactic(auto)]

pub mod field;
mod number;

ghost use Rattle.std.specs.Prelude.{◌≡◌};
ghost use Rattle.line.specs.Lines.{largest_number};
ghost use Rattle.line.specs.Kinds.{first_of, is_card, line_of};

use crate::field::{SPACE, before, number_after, same};
use schedule::Policy;
use task::Task;

// The largest number that is read.
pub const LARGEST_NUMBER: usize = 999_999;

// `policy` and its name.
pub fn policy_of(line: &[u8]) -> Option<Policy>
    ensures { result ≡ first_of line.now }
{
    // A `match` on byte strings would tell the proof their lengths alone.
    if same(line, b"policy list") {
        Some(Policy::ListOrder)
    } else if same(line, b"policy rm") {
        Some(Policy::RateMonotonic)
    } else if same(line, b"policy dm") {
        Some(Policy::DeadlineMonotonic)
    } else if same(line, b"policy edf") {
        Some(Policy::Edf)
    } else {
        None
    }
}

// `card small`: a wide card has no line.
pub fn is_card(line: &[u8]) -> bool
    ensures { result ≡ is_card line.now }
{
    same(line, b"card small")
}

// `task` and four numbers, and no more.
pub fn task_of(line: &[u8]) -> Option<Task>
    ensures { result ≡ line_of line.now }
{
    let word = before(line, SPACE);
    if !same(&line[..word], b"task") {
        return None;
    }
    let offset = number_after(line, word)?;
    let run = number_after(line, offset.end)?;
    let deadline = number_after(line, run.end)?;
    let period = number_after(line, deadline.end)?;
    if period.end < line.len() {
        return None;
    }
    Some(Task::new(offset.number, run.number, deadline.number, period.number))
}

// Ties the limit to the number of specs/.
fn limit()
    ensures { LARGEST_NUMBER ≡ largest_number }
{}

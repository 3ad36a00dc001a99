// The list as text, read from bytes. Requests #101 and #105.
#![tactic(auto)]

ghost use Rattle.std.specs.Prelude.{◌≡◌, [], ◌≤◌};
ghost use Rattle.decimal.specs.Bytes.{newline};
ghost use Rattle.line.specs.Lines.{parts};
ghost use Rattle.text.specs.Reading.{reading, lines_of, card_on, tasks_on, most_bytes};
ghost use Rattle.text.specs.Held.{held};
ghost use Rattle.text.specs.FirstLine.{IsFirstLine};

use card::Card;
use line::field::before;
use line::{is_card, policy_of, task_of};
use schedule::Policy;
use task::list::Tasks;

// The longest input that is read.
pub const MOST_BYTES: usize = 4096;

const NEWLINE: u8 = b'\n';

// A list, with its card and its policy.
#[derive(Clone, Copy, Debug, PartialEq, Eq)]
pub struct Listed {
    pub card: Card,
    pub policy: Policy,
    pub tasks: Tasks,
}

// The first line that can't be read; 0, as the output prints it, for an input that is too long.
#[derive(Clone, Copy, Debug, PartialEq, Eq)]
pub struct Unread {
    pub line: usize,
}

// What an input says. Its length is looked at before any line.
pub fn read(s: &[u8]) -> Result<Listed, Unread>
    ensures { result ≡ held (reading s.now) }
{
    if MOST_BYTES < s.len() {
        return Err(Unread { line: 0 });
    }
    lines(s)
}

fn lines(s: &[u8]) -> Result<Listed, Unread>
    ensures { result ≡ held (lines_of (parts newline s.now)) }
{
    let (line, rest) = first_line(s).ok_or(Unread { line: 1 })?;
    let policy = policy_of(line).ok_or(Unread { line: 1 })?;
    after_policy(rest, policy)
}

// The lines from the second on: a list for a small card says so there, one for a wide card begins with its tasks.
fn after_policy(s: &[u8], policy: Policy) -> Result<Listed, Unread>
    ensures { result ≡ held (card_on policy (parts newline s.now)) }
{
    match first_line(s) {
        Some((line, rest)) if is_card(line) => tasks(rest, Card::Small, policy, 3),
        _ => tasks(s, Card::Wide, policy, 2),
    }
}

// The lines from the first task on. A list that is too long is read to its end: the array counts what it can't hold.
fn tasks(s: &[u8], card: Card, policy: Policy, first: usize) -> Result<Listed, Unread>
    requires { first ≤ 3 }
    ensures { result ≡ held (tasks_on card policy [] first (parts newline s.now)) }
{
    let mut tasks = Tasks::none();
    for (i, line) in s.split_inclusive(|b| *b == NEWLINE).enumerate() {
        let unread = Unread { line: first + i };
        // The last line needs its newline too.
        let line = line.strip_suffix(&[NEWLINE]).ok_or(unread)?;
        let task = task_of(line).ok_or(unread)?;
        tasks = tasks.with(task);
    }
    Ok(Listed {
        card,
        policy,
        tasks,
    })
}

// The first line, without its newline, and the bytes after it; None where no newline is left.
fn first_line(s: &[u8]) -> Option<(&[u8], &[u8])>
    ensures { IsFirstLine s.now result }
{
    let end = before(s, NEWLINE);
    if s.len() <= end {
        return None;
    }
    Some((&s[..end], &s[end + 1..]))
}

// Ties the limit to the number of specs/.
fn limit()
    ensures { MOST_BYTES ≡ most_bytes }
{}

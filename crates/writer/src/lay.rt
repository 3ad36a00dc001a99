// The text of a policy, a card and a list, laid on a page.
ghost use Rattle.std.specs.Prelude.{◌≡◌, [], ◌∷◌, ◌++◌};
ghost use Rattle.decimal.specs.Bytes.{newline};
ghost use Rattle.decimal.specs.Laying.{OnPage};
ghost use Rattle.line.specs.Kinds.{policy_text};
ghost use Rattle.writer.specs.Writing.{text, card_line, task_text, field_text, is_large, any_large};

use card::Card;
use decimal::{Page, Text};
use line::LARGEST_NUMBER;
use schedule::Policy;
use task::Task;

// A policy, a card and a list, as the text that is read again.
#[derive(Clone, Copy)]
pub(crate) struct Input<'a> {
    pub policy: Policy,
    pub card: Card,
    pub tasks: &'a [Task],
}

impl<'a> Text for Input<'a> {
    ghost text = { λ i. text i.card i.policy i.tasks.now };

    fn lay(&self, page: &mut Page) {
        first(page, self.policy);
        card_line(page, self.card);
        for task in self.tasks {
            task_line(page, *task);
        }
    }
}

fn first(page: &mut Page, policy: Policy)
    ensures { OnPage page.old (policy_text policy ++ newline ∷ []) page.new }
{
    match policy {
        Policy::ListOrder => page.word(b"policy list\n"),
        Policy::RateMonotonic => page.word(b"policy rm\n"),
        Policy::DeadlineMonotonic => page.word(b"policy dm\n"),
        Policy::Edf => page.word(b"policy edf\n"),
    }
}

// The small card's line. A wide card has none.
fn card_line(page: &mut Page, card: Card)
    ensures { OnPage page.old (card_line card) page.new }
{
    match card {
        Card::Wide => page.word(b""),
        Card::Small => page.word(b"card small\n"),
    }
}

fn task_line(page: &mut Page, task: Task)
    ensures { OnPage page.old (task_text task) page.new }
{
    page.word(b"task");
    field(page, task.offset);
    field(page, task.run);
    field(page, task.deadline);
    field(page, task.period);
    page.byte(b'\n');
}

fn field(page: &mut Page, n: usize)
    ensures { OnPage page.old (field_text n) page.new }
{
    page.byte(b' ');
    page.number(n);
}

// Whether a number of the list is above those that are read.
pub(crate) fn any_large(tasks: &[Task]) -> bool
    ensures { result ≡ any_large tasks.now }
{
    tasks.iter().any(|task| is_large(*task))
}

fn is_large(task: Task) -> bool
    ensures { result ≡ is_large task }
{
    LARGEST_NUMBER < task.offset
        || LARGEST_NUMBER < task.run
        || LARGEST_NUMBER < task.deadline
        || LARGEST_NUMBER < task.period
}

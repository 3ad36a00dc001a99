// The lines of a report, laid on a page one after the other.
ghost use Rattle.std.specs.Prelude.{◌≡◌, take};
ghost use Rattle.answer.specs.Answers.{row, feasible};
ghost use Rattle.decimal.specs.Laying.{Laid, OnPage};
ghost use Rattle.report.specs.Report.{line, spaced, slots_text, table, report};

use answer::{Answer, IDLE, Plan};
use decimal::{Page, Text, byte, number};

// An answer and the tables that it left, as a text.
#[derive(Clone, Copy)]
pub(crate) struct Report<'a> {
    pub said: Answer,
    pub startup: &'a [u8],
    pub cycle: &'a [u8],
}

impl<'a> Text for Report<'a> {
    ghost text = { λ r. report (row r.said) r.startup.now r.cycle.now };

    fn lay(&self, page: &mut Page) {
        match self.said {
            Answer::Feasible(plan) => feasible(page, plan, self.startup, self.cycle),
            Answer::Missed { task, at } => line(page, b"missed", &[task, at]),
            Answer::Overloaded { load, hyperperiod } => {
                line(page, b"overloaded", &[load, hyperperiod])
            }
            Answer::Refused(why, task) => line(page, b"refused", &[why.number(), task]),
        }
    }
}

fn feasible(page: &mut Page, plan: Plan, startup: &[u8], cycle: &[u8])
    ensures { OnPage page.old (report (feasible plan) startup.now cycle.now) page.new }
{
    page.word(b"feasible\n");
    line(page, b"hyperperiod", &[plan.hyperperiod]);
    line(page, b"load", &[plan.load]);
    line(page, b"idle", &[plan.startup_idle, plan.cycle_idle]);
    line(
        page,
        b"preemptions",
        &[plan.startup_preemptions, plan.cycle_preemptions],
    );
    // No table is as long as the largest number.
    let lead = plan.latest.saturating_add(plan.hyperperiod);
    table(page, b"first", beginning(startup, lead));
    table(page, b"again", beginning(cycle, plan.hyperperiod));
}

// A name and numbers.
pub fn line(page: &mut Page, name: &[u8], numbers: &[usize])
    ensures { OnPage page.old (line name.now numbers.now) page.new }
{
    page.word(name);
    for n in numbers {
        page.byte(b' ');
        page.number(*n);
    }
    page.byte(b'\n');
}

fn table(page: &mut Page, name: &[u8], slots: &[u8])
    ensures { OnPage page.old (table name.now slots.now) page.new }
{
    page.word(name);
    page.at = entries(page.out, page.at, slots);
}

// The entries of a table, and the newline, with buffer and place by themselves: behind the page's reference the place goes through memory with each byte.
fn entries(out: &mut [u8], at: usize, slots: &[u8]) -> usize
    ensures { Laid at (slots_text slots.now) out.old result out.new }
{
    let mut next = at;
    for b in slots {
        next = slot(out, next, *b);
    }
    byte(out, next, b'\n')
}

fn slot(out: &mut [u8], at: usize, b: u8) -> usize
    ensures { Laid at (spaced b) out.old result out.new }
{
    let next = byte(out, at, b' ');
    if b == IDLE {
        return byte(out, next, b'-');
    }
    number(out, next, b as usize)
}

// The first n entries, or all where there are fewer.
fn beginning(s: &[u8], n: usize) -> &[u8]
    ensures { result.now ≡ take n s.now }
{
    s.get(..n).unwrap_or(s)
}

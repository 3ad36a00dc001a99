// The printed report of an answer. Request #101.
#![tactic(auto)]

pub mod lay;

ghost use Rattle.answer.specs.Answers.{row};
ghost use Rattle.decimal.specs.Laying.{Wrote};
ghost use Rattle.report.specs.Report.{report};

use answer::Answer;
use lay::Report;

// The report of an answer and the tables that it left, and its length; None, with nothing written, where `out` is shorter.
// The tables come one by one, as `check` takes them.
pub fn report(said: Answer, startup: &[u8], cycle: &[u8], out: &mut [u8]) -> Option<usize>
    ensures { Wrote (report (row said) startup.now cycle.now) out.old result out.new }
{
    let text = Report {
        said,
        startup,
        cycle,
    };
    decimal::write(&text, out)
}

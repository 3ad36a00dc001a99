// What comes back from a check. Document 01, "What comes back".
#![tactic(auto)]

ghost use Rattle.std.specs.Prelude.{◌≡◌};
ghost use Rattle.schedule.specs.Job.{idle};
ghost use Rattle.answer.specs.Tables.{byte_of};

use refusal::Refusal;

// A table entry of an idle slot; any other entry is a task number. A byte, since callers in C lend the tables.
pub const IDLE: u8 = 255;

// What is said of a feasible list: M, H and L, and the counts of the two parts.
#[derive(Clone, Copy, Debug, PartialEq, Eq)]
pub struct Plan {
    pub latest: usize,
    pub hyperperiod: usize,
    pub load: usize,
    pub startup_idle: usize,
    pub cycle_idle: usize,
    pub startup_preemptions: usize,
    pub cycle_preemptions: usize,
}

// The four cases of document 01: a refusal and a miss hold the paper's values.
#[derive(Clone, Copy, Debug, PartialEq, Eq)]
pub enum Answer {
    Refused(Refusal, usize),
    Overloaded { load: usize, hyperperiod: usize },
    Missed { task: usize, at: usize },
    Feasible(Plan),
}

// Ties the mark of an idle slot to the number of specs/.
fn mark()
    ensures { IDLE ≡ byte_of idle }
{}

// Why a list or a buffer is refused. Document 01, "What comes back", and request #105.
#![tactic(auto)]

ghost use Rattle.std.specs.Prelude.{◌≡◌};
ghost use Rattle.refusal.specs.Refusals.{number_of};

// Each has the paper's number.
#[derive(Clone, Copy, Debug, PartialEq, Eq)]
pub enum Refusal {
    Count = 1,
    Period = 2,
    Run = 3,
    Deadline = 4,
    Offset = 5,
    Hyperperiod = 6,
    Startup = 7,
    Cycle = 8,
    Timer = 9,
}

// Why a check refuses, and which task; 0 where the paper gives no task.
#[derive(Clone, Copy, Debug, PartialEq, Eq)]
pub struct Refused {
    pub why: Refusal,
    pub task: usize,
}

impl Refusal {
    // The paper's number.
    pub fn number(self) -> usize
        ensures { result ≡ number_of self }
    {
        self as usize
    }
}

// What the slot engine keeps for each task at an instant. It has no function: the engine is in `checker`.
#![tactic(auto)]

// The slots owed to a task, its next release, and the instant due and the key of its last released job.
#[derive(Clone, Copy, Debug, Default, PartialEq, Eq)]
pub struct Job {
    pub owed: usize,
    pub next: usize,
    pub due: usize,
    pub key: usize,
}

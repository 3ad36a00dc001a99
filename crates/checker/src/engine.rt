// The slot engine: a list under a policy. It changes neither; what it keeps, a job for each task, is lent to each method. With the jobs as a field each
// method would have to promise that the policy and the list stay, and with the task in each job that these are the list. So that there is a job for each
// task, and what holds of the jobs, the list and the chosen task together (`Instant`), stand in the clauses.
use schedule::Policy;
use task::Task;

// It goes by value, as a slice does: two fields that no function changes. Behind a reference a slot takes about as long.
#[derive(Clone, Copy, Debug, PartialEq, Eq)]
pub(crate) struct Engine<'a> {
    pub(crate) policy: Policy,
    pub(crate) tasks: &'a [Task],
}

// Our own array of tasks, with a count. Document 01, "What a task list says".
ghost use Rattle.std.specs.Prelude.{◌≡◌};
ghost use Rattle.task.specs.Arrays.{blank, fitting, empty, stored, added};

use crate::Task;

// The count is the list's true length, also where that is more than the array holds, so it stands beside the array, which is of fixed memory.
// With a count above its room it holds many lists, so no invariant names one, and promises speak of every list that it holds.
#[derive(Clone, Copy, Debug, PartialEq, Eq)]
pub struct Tasks {
    pub items: [Task; Task::MOST],
    pub count: usize,
}

impl Tasks {
    // The array of a list of `count` tasks, none of which is in it yet.
    #[tactic(auto, unfolding(crate::specs::Arrays::blank))]
    pub fn sized(count: usize) -> Self
        ensures { result ≡ blank count }
    {
        let nobody = Task::new(0, 0, 0, 0);
        let items = [nobody; Task::MOST];
        Self { items, count }
    }

    // How many of n tasks the array has room for.
    pub fn room(n: usize) -> usize
        ensures { result ≡ fitting n }
    {
        n.min(Task::MOST)
    }

    // The list of no tasks. A `Default` would be a second name for it: docs/PROMISES.md names this one.
    pub fn none() -> Self
        ensures { result ≡ empty }
    {
        Tasks::sized(0)
    }

    // The array with a task in its place, if it has that place; the list's length stays.
    #[tactic(auto, unfolding(crate::specs::Arrays::stored))]
    pub fn put(mut self, at: usize, task: Task) -> Self
        ensures { result ≡ stored self at task }
    {
        // By index, since no proof knows an element that was written through the library's `get_mut`.
        if at < Task::MOST {
            self.items[at] = task;
        }
        self
    }

    // The list with one task more.
    #[tactic(auto, unfolding(crate::specs::Arrays::stored))]
    pub fn with(self, task: Task) -> Self
        ensures { result ≡ added self task }
    {
        Self {
            count: self.count.saturating_add(1),
            ..self.put(self.count, task)
        }
    }
}

// What is answered of a list that is not refused: the overload, and then the schedule.
ghost use Rattle.std.specs.Prelude.{◌≡◌, ◌≤◌, length};
ghost use Rattle.refusal.specs.Refusals.{sound};
ghost use Rattle.card.specs.declared.Card.TheVariants.{Wide};
ghost use Rattle.task.specs.Checks.{first_refusal};
ghost use Rattle.admission.specs.Admissions.{measures_of};
ghost use Rattle.answer.specs.Answers.{row};
ghost use Rattle.answer.specs.Promise.{Permitted};

use crate::engine::Engine;
use admission::Measures;
use answer::Answer;
use state::Job;
use task::Task;

impl Engine<'_> {
    // A list that is not refused: overloaded, or what its schedule says. From here on every card is as a wide one.
    pub(crate) fn judged(self, measures: Measures, startup: &mut [u8], cycle: &mut [u8]) -> Answer
        requires no_refusal { first_refusal Wide self.tasks.now (length startup.old) (length cycle.old) ≡ sound }
        requires measured { measures ≡ measures_of self.tasks.now }
        ensures { Permitted Wide self.entry.policy self.entry.tasks.now startup.old cycle.old (row result) startup.new cycle.new }
    {
        let load = measures.load;
        let hyperperiod = measures.hyperperiod;
        if hyperperiod < load {
            return Answer::Overloaded { load, hyperperiod };
        }
        self.scheduled(measures, startup, cycle)
    }

    // The jobs live here, and are lent to what follows.
    fn scheduled(self, measures: Measures, startup: &mut [u8], cycle: &mut [u8]) -> Answer
        requires no_refusal { first_refusal Wide self.tasks.now (length startup.old) (length cycle.old) ≡ sound }
        requires measured { measures ≡ measures_of self.tasks.now }
        requires fits { measures.load ≤ measures.hyperperiod }
        ensures { Permitted Wide self.entry.policy self.entry.tasks.now startup.old cycle.old (row result) startup.new cycle.new }
    {
        let mut jobs = [Job::default(); Task::MOST];
        match self.tables(&mut jobs[..self.tasks.len()], measures, startup, cycle) {
            Ok(plan) => Answer::Feasible(plan),
            Err(missed) => Answer::Missed {
                task: missed.task,
                at: missed.at,
            },
        }
    }
}

// Checks a built-in list, list b of document 01, and prints the answer with its tables, and the slot of a late instant.
// `stdout` was read off the paper; 1,000,001 is five startup slots, 249,999 cycles of four, and no more.
#![tactic(auto)]

use answer::{Answer, IDLE, Plan};
use card::Card;
use schedule::Policy;
use std::io;
use task::Task;
use task::list::Tasks;

fn pair(rt: &impl Print, name: &str, a: usize, b: usize) -> io::Result<()> {
    println!(rt; "{name} {a} {b}")
}

fn counts(rt: &impl Print, plan: Plan) -> io::Result<()> {
    println!(rt;
        "feasible M {} H {} L {}",
        plan.latest, plan.hyperperiod, plan.load
    )
}

fn say(rt: &impl Print, said: Answer) -> io::Result<()> {
    match said {
        Answer::Refused(why, task) => pair(rt, "refused", why.number(), task),
        Answer::Overloaded { load, hyperperiod } => pair(rt, "overloaded", load, hyperperiod),
        Answer::Missed { task, at } => pair(rt, "missed", task, at),
        Answer::Feasible(plan) => counts(rt, plan),
    }
}

fn entry(rt: &impl Print, b: u8) -> io::Result<()> {
    if b == IDLE {
        print!(rt; " -")
    } else {
        print!(rt; " {b}")
    }
}

fn table(rt: &impl Print, name: &str, entries: &[u8]) -> io::Result<()> {
    print!(rt; "{name}")?;
    for b in entries {
        entry(rt, *b)?;
    }
    println!(rt;)
}

// Only a feasible answer has counts.
fn rest(rt: &impl Print, said: Answer) -> io::Result<()> {
    if let Answer::Feasible(plan) = said {
        pair(rt, "idle", plan.startup_idle, plan.cycle_idle)?;
        pair(
            rt,
            "preemptions",
            plan.startup_preemptions,
            plan.cycle_preemptions,
        )?;
    }
    Ok(())
}

// The slot of any instant, looked up in the tables.
fn slot(rt: &impl Print, startup: &[u8], cycle: &[u8], t: usize) -> io::Result<()> {
    print!(rt; "slot {t}")?;
    if let Some(b) = lookup::lookup(startup, cycle, t).first() {
        entry(rt, *b)?;
    }
    println!(rt;)
}

fn main(rt: HostRuntime) -> io::Result<()> {
    let list = Tasks::none()
        .with(Task::new(0, 2, 4, 4))
        .with(Task::new(1, 1, 2, 4));
    let mut startup = [IDLE; 5];
    let mut cycle = [IDLE; 4];
    let said = checker::check(list, Card::Wide, Policy::Edf, &mut startup, &mut cycle);
    say(&rt, said)?;
    table(&rt, "startup", &startup)?;
    table(&rt, "cycle", &cycle)?;
    rest(&rt, said)?;
    slot(&rt, &startup, &cycle, 1_000_001)
}

// Plans appended to a log, the power cut after every byte of the newest, and what is left read back and appended to; then each byte
// of small logs changed in turn. `stdout` was worked out by hand from the request.
#![tactic(auto)]

mod tally;

use std::io;
use tally::{Plan, Tally, before, look};
use task::Task;

// The longest tables that the checker writes.
const STARTUP: usize = Task::LATEST_OFFSET + Task::LONGEST_HYPERPERIOD;

const CYCLE: usize = Task::LONGEST_HYPERPERIOD;

// Such a plan takes 782 blocks with its trailer, and the one before it two.
const ROOM: usize = 784 * format::BLOCK;

// How many bytes are used once a plan is appended, 0 where it is refused: no plan of this program is.
fn append(log: &mut [u8], used: usize, plan: Plan) -> usize {
    plan_log::append(log, used, plan.startup, plan.cycle).unwrap_or(0)
}

// Entries that differ from those near them.
fn number_all(entries: &mut [u8], first: usize) {
    for (i, entry) in entries.iter_mut().enumerate() {
        *entry = ((first % 256 + i % 251) % 256) as u8;
    }
}

// What is left once j bytes are written, read for each j, a length and no index, from `begun` to the whole.
fn cut(log: &[u8], begun: usize, plan: Plan) -> Tally {
    let mut s = [0u8; STARTUP];
    let mut c = [0u8; CYCLE];
    let mut tally = Tally::default();
    for j in begun..log.len() {
        tally.add(look(&log[..j], plan, &mut s, &mut c));
    }
    tally.add(look(log, plan, &mut s, &mut c));
    tally
}

fn in_log(rt: &impl Print, log: &mut [u8], begun: usize, plan: Plan) -> io::Result<()> {
    let whole = append(log, begun, plan);
    let Some(written) = log.get(..whole) else {
        return Ok(());
    };
    println!(rt; "{}", cut(written, begun, plan))
}

// After each cut, at j bytes, another plan is appended and read, and then the first again.
fn again(rt: &impl Print, log: &mut [u8], begun: usize, plan: Plan) -> io::Result<()> {
    let another = Plan {
        startup: b"an",
        cycle: b"other",
    };
    let mut s = [0u8; 64];
    let mut c = [0u8; 64];
    let whole = append(log, begun, plan);
    let mut tally = Tally::default();
    for j in begun..whole {
        let n = append(log, j, another);
        let Some(written) = log.get(..n) else {
            return Ok(());
        };
        tally.add(look(written, another, &mut s, &mut c));
        append(log, begun, plan);
    }
    println!(rt; "  another appended after each: {tally}")
}

// A plan in an empty log, and after another plan.
fn both(rt: &impl Print, log: &mut [u8], plan: Plan) -> io::Result<()> {
    println!(rt;
        "startup {}, cycle {}",
        plan.startup.len(),
        plan.cycle.len()
    )?;
    print!(rt; "  cut in an empty log: ")?;
    in_log(rt, log, 0, plan)?;
    let begun = append(log, 0, before());
    print!(rt; "  cut after a plan: ")?;
    in_log(rt, log, begun, plan)?;
    // Each of these lays the whole plan anew, so the longest is left out.
    if plan.startup.len() < 64 {
        again(rt, log, begun, plan)?;
    }
    Ok(())
}

fn plan(rt: &impl Print, s: usize, c: usize) -> io::Result<()> {
    let mut startup = [0u8; STARTUP];
    let mut cycle = [0u8; CYCLE];
    let mut log = [0u8; ROOM];
    number_all(&mut startup, 1);
    number_all(&mut cycle, 101);
    match (startup.get(..s), cycle.get(..c)) {
        (Some(startup), Some(cycle)) => both(rt, &mut log, Plan { startup, cycle }),
        _ => Ok(()),
    }
}

// Each byte one more, and then as it was: the whole log is read in between.
fn damage(rt: &impl Print, log: &mut [u8], newest: Plan) -> io::Result<()> {
    let mut s = [0u8; 64];
    let mut c = [0u8; 64];
    let mut tally = Tally::default();
    for i in 0..log.len() {
        let kept = log[i];
        log[i] = kept.wrapping_add(1);
        tally.add(look(log, newest, &mut s, &mut c));
        log[i] = kept;
    }
    println!(rt; "{tally}")
}

// A plan of six entries takes 128 bytes.
fn damaged(rt: &impl Print) -> io::Result<()> {
    let newest = Plan {
        startup: b"new",
        cycle: b"est",
    };
    let mut one = [0u8; 128];
    append(&mut one, 0, newest);
    print!(rt; "one plan, each byte changed: ")?;
    damage(rt, &mut one, newest)?;
    let mut two = [0u8; 256];
    append(&mut two, 0, before());
    append(&mut two, 128, newest);
    print!(rt; "two plans, each byte changed: ")?;
    damage(rt, &mut two, newest)
}

fn main(rt: HostRuntime) -> io::Result<()> {
    plan(&rt, 0, 0)?;
    plan(&rt, 1, 0)?;
    plan(&rt, 40, 22)?;
    plan(&rt, 41, 22)?;
    plan(&rt, 42, 22)?;
    plan(&rt, STARTUP, CYCLE)?;
    damaged(&rt)
}

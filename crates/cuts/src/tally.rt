// What reading a log gives, and how often.
use std::fmt;
use unpacking::NoPlan;

// The two parts of a plan.
#[derive(Clone, Copy, PartialEq, Eq)]
pub(crate) struct Plan<'a> {
    pub(crate) startup: &'a [u8],
    pub(crate) cycle: &'a [u8],
}

// The plan before the newest, wherever there is one.
pub(crate) fn before() -> Plan<'static> {
    Plan {
        startup: b"be",
        cycle: b"fore",
    }
}

#[derive(Clone, Copy, Debug, PartialEq, Eq)]
pub(crate) enum Seen {
    No(NoPlan),
    Before,
    Newest,
    Other,
}

#[derive(Clone, Copy, Default)]
pub(crate) struct Tally {
    nothing: usize,
    damaged: usize,
    short: usize,
    before: usize,
    newest: usize,
    other: usize,
}

impl Tally {
    // No run counts so far that a count stays where it is.
    pub(crate) fn add(&mut self, seen: Seen) {
        match seen {
            Seen::No(NoPlan::Nothing) => self.nothing = self.nothing.saturating_add(1),
            Seen::No(NoPlan::Damaged) => self.damaged = self.damaged.saturating_add(1),
            Seen::No(NoPlan::Short) => self.short = self.short.saturating_add(1),
            Seen::Before => self.before = self.before.saturating_add(1),
            Seen::Newest => self.newest = self.newest.saturating_add(1),
            Seen::Other => self.other = self.other.saturating_add(1),
        }
    }
}

impl fmt::Display for Tally {
    fn fmt<W: fmt::Write>(&self, f: &mut fmt::Formatter<W>) -> fmt::Result {
        write!(f, "no plan {}, ", self.nothing)?;
        write!(f, "damaged {}, ", self.damaged)?;
        write!(f, "short {}, ", self.short)?;
        write!(f, "the plan before {}, ", self.before)?;
        write!(f, "the newest {}, ", self.newest)?;
        write!(f, "another {}", self.other)
    }
}

fn which(read: Plan, newest: Plan) -> Seen {
    if read == before() {
        Seen::Before
    } else if read == newest {
        Seen::Newest
    } else {
        Seen::Other
    }
}

// No plan here has this entry among its first 64, and one that is longer is read once.
fn spoil(buffer: &mut [u8]) {
    let n = buffer.len().min(64);
    buffer[..n].fill(254);
}

// Reads a log by way of two buffers, in which nothing is left of what was read before, and tells which plan that is.
pub(crate) fn look(log: &[u8], newest: Plan, s: &mut [u8], c: &mut [u8]) -> Seen {
    spoil(s);
    spoil(c);
    match plan_log::read(log, s, c) {
        Err(none) => Seen::No(none),
        Ok(lengths) => match (s.get(..lengths.startup), c.get(..lengths.cycle)) {
            (Some(startup), Some(cycle)) => which(Plan { startup, cycle }, newest),
            _ => Seen::Other,
        },
    }
}

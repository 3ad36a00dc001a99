// The plan before a trailer, checked and handed over. Request #104.
#![tactic(auto)]

mod check;

ghost use Rattle.std.specs.Prelude.{◌≡◌, ◌+◌, ◌*◌, ◌/◌, ◌≤◌, length, take, drop};
ghost use Rattle.format.specs.Blocks.{block_length, carried_length};
ghost use Rattle.format.specs.Newest as newest;
ghost use Rattle.unpacking.specs.Unpacking.{ReadOff, number_of};

use format::BLOCK;

// How many entries a plan's two parts have.
#[derive(Clone, Copy, Debug, PartialEq, Eq)]
pub struct Lengths {
    pub startup: usize,
    pub cycle: usize,
}

// No plan is handed over: there is none, the last trailer is refused, or a buffer is shorter than its part. Each has the request's number.
#[derive(Clone, Copy, Debug, PartialEq, Eq)]
pub enum NoPlan {
    Nothing = 20,
    Damaged = 21,
    Short = 22,
}

impl NoPlan {
    // The request's number.
    pub fn number(self) -> usize
        ensures { result ≡ number_of self }
    {
        self as usize
    }
}

// Hands over the plan before the last block of a log, which is a trailer where the log has been cut back. The two buffers come one by one, as in C.
pub fn plan(log: &[u8], startup: &mut [u8], cycle: &mut [u8]) -> Result<Lengths, NoPlan>
    ensures { ReadOff startup.old cycle.old result startup.new cycle.new (newest.newest_of log.now) }
{
    let Some((before, trailer)) = log.split_last_chunk::<BLOCK>() else {
        return Err(NoPlan::Nothing);
    };
    let (blocks, lengths) = check::covered(before, trailer)?;
    hand(blocks, lengths, startup, cycle)
}

// The plan that the blocks carry, into two lent buffers, unless one is shorter than its part.
fn hand(
    blocks: &[u8],
    lengths: Lengths,
    startup: &mut [u8],
    cycle: &mut [u8],
) -> Result<Lengths, NoPlan>
    requires { lengths.startup + lengths.cycle ≤ carried_length * (length blocks.now / block_length) }
    ensures { let entries = newest.carried (length blocks.now / block_length) blocks.now in
        ReadOff startup.old cycle.old result startup.new cycle.new (newest.plan (take lengths.startup entries) (take lengths.cycle (drop lengths.startup entries))) }
{
    if startup.len() < lengths.startup {
        return Err(NoPlan::Short);
    }
    if cycle.len() < lengths.cycle {
        return Err(NoPlan::Short);
    }
    entries(
        blocks,
        &mut startup[..lengths.startup],
        &mut cycle[..lengths.cycle],
    );
    Ok(lengths)
}

// The startup entries that the blocks carry, and after them the cycle entries.
fn entries(blocks: &[u8], startup: &mut [u8], cycle: &mut [u8])
    requires { length startup.old + length cycle.old ≤ carried_length * (length blocks.now / block_length) }
    ensures first { startup.new ≡ take (length startup.old) (newest.carried (length blocks.now / block_length) blocks.now) }
    ensures second { cycle.new ≡ take (length cycle.old) (drop (length startup.old) (newest.carried (length blocks.now / block_length) blocks.now)) }
{
    let mut s = 0;
    let mut c = 0;
    for block in blocks.chunks_exact(BLOCK) {
        let carried = &block[1..];
        let next = copying::fill(carried, 0, startup, s);
        c = copying::fill(carried, next - s, cycle, c);
        s = next;
    }
}

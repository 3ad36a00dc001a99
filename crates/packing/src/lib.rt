// A plan and its trailer, laid into the log at a place. Request #104.
#![tactic(auto)]

mod lay;

ghost use Rattle.std.specs.Prelude.{◌≡◌};
ghost use Rattle.packing.specs.Packing.{PackedAt, number_of};

use format::BLOCK;
use lay::Parts;

// The plan is refused: it doesn't fit, or a length is above 65,535.
#[derive(Clone, Copy, Debug, PartialEq, Eq)]
pub struct NoRoom;

impl NoRoom {
    // The request's number.
    pub fn number(self) -> usize
        ensures { result ≡ number_of self }
    {
        23
    }
}

// Lays a plan and its trailer from place `at` on, unless they don't fit or a length is above 65,535; answers how many bytes are used then.
pub fn plan(log: &mut [u8], at: usize, startup: &[u8], cycle: &[u8]) -> Result<usize, NoRoom>
    ensures { PackedAt log.old at startup.now cycle.now result log.new }
{
    let s = u16::try_from(startup.len()).map_err(|_| NoRoom)?;
    let c = u16::try_from(cycle.len()).map_err(|_| NoRoom)?;
    let count = format::blocks_for(usize::from(s) + usize::from(c));
    let n = BLOCK * count + BLOCK;
    if log.len().saturating_sub(at) < n {
        return Err(NoRoom);
    }
    let last = at + BLOCK * count;
    lay::blocks(&mut log[at..last], Parts { startup, cycle }, count);
    lay::trailer(&mut log[last..last + BLOCK], count as u16, s, c);
    Ok(at + n)
}

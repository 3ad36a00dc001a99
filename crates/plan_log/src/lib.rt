// The log of plans on a card: a plan is appended, and the newest that is fully written is read. Request #104. Log, used count and a plan's two parts come
// one by one, as README and the C interface name them; so they do in packing and unpacking.
#![tactic(auto)]

ghost use Rattle.plan_log.specs.Log.{AppendedAs, ReadAs};

use packing::NoRoom;
use unpacking::{Lengths, NoPlan};

// Cuts the log back to just after its last trailer, or to nothing, and lays a plan there, unless it doesn't fit.
pub fn append(log: &mut [u8], used: usize, startup: &[u8], cycle: &[u8]) -> Result<usize, NoRoom>
    ensures { AppendedAs log.old used startup.now cycle.now result log.new }
{
    let start = format::start(log, used);
    packing::plan(log, start, startup, cycle)
}

// Hands over the newest plan that is fully written.
pub fn read(log: &[u8], startup: &mut [u8], cycle: &mut [u8]) -> Result<Lengths, NoPlan>
    ensures { ReadAs log.now startup.old cycle.old result startup.new cycle.new }
{
    let end = format::kept(log);
    unpacking::plan(&log[..end], startup, cycle)
}

// The log of plans for callers in C and Rust. Request #104.
ghost use Rattle.sholakpite.specs.Logs.{AnsweredAppend, AnsweredRead};

use words::NOT_UNDERSTOOD;

// The words that a plan's two lengths take.
const LENGTHS: usize = 2;

// Appends a plan to a log, and gives how many bytes are used then; or 23, with nothing written.
#[unsafe(no_mangle)]
pub extern "C" fn sholakpite_append(log: &mut [u8], used: u64, startup: &[u8], cycle: &[u8]) -> u64
    ensures { AnsweredAppend log.old used startup.now cycle.now result log.new }
{
    match plan_log::append(log, used as usize, startup, cycle) {
        Ok(n) => n as u64,
        Err(refused) => refused.number() as u64,
    }
}

// The newest plan of a log that is fully written: 0, with its two lengths in `lengths`; or 20, 21 or 22, with nothing written.
#[unsafe(no_mangle)]
pub extern "C" fn sholakpite_read(
    log: &[u8],
    startup: &mut [u8],
    cycle: &mut [u8],
    lengths: &mut [u64],
) -> u64
    ensures { AnsweredRead log.now startup.old cycle.old lengths.old result startup.new cycle.new lengths.new }
{
    if lengths.len() < LENGTHS {
        return NOT_UNDERSTOOD;
    }
    match plan_log::read(log, startup, cycle) {
        Ok(plan) => {
            lengths[0] = plan.startup as u64;
            lengths[1] = plan.cycle as u64;
            0
        }
        Err(none) => none.number() as u64,
    }
}

// A plan in the log, as bytes: how many blocks it takes, and what is kept of a log after a power cut. Request #104.
#![tactic(auto)]

ghost use Rattle.std.specs.Prelude.{◌≡◌, length, take};
ghost use Rattle.format.specs.Blocks.{blocks_for};
ghost use Rattle.format.specs.Newest.{kept};

pub const BLOCK: usize = 64;

pub const CARRIED: usize = 63;

// Public, so it stays, though no code here needs it: lengths are 16-bit numbers.
pub const LARGEST: usize = 65535;

pub const PLAN: u8 = 1;

pub const TRAILER: u8 = 2;

// Where a trailer's three numbers and its rest begin.
pub const COUNT_AT: usize = 1;

pub const STARTUP_AT: usize = 3;

pub const CYCLE_AT: usize = 5;

pub const REST_AT: usize = 7;

// How many blocks so many entries take: their number divided by 63, rounded up.
pub fn blocks_for(entries: usize) -> usize
    ensures { result ≡ blocks_for entries }
{
    entries.div_ceil(CARRIED)
}

// How many bytes of a log are kept when it is cut back to just after its last trailer, or to nothing.
pub fn kept(log: &[u8]) -> usize
    ensures { result ≡ length (kept log.now) }
{
    let mut end = log.len() - log.len() % BLOCK;
    // Not `rposition` over the blocks: where there are many to step over `append` took up to 2.3 times as long.
    for block in log[..end].rchunks_exact(BLOCK) {
        if block[0] == TRAILER {
            return end;
        }
        end -= BLOCK;
    }
    0
}

// The same of the bytes that are used, all of them where the count is above their number.
pub fn start(log: &[u8], used: usize) -> usize
    ensures { result ≡ length (kept (take used log.now)) }
{
    kept(log.get(..used).unwrap_or(log))
}

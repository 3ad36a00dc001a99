// A plan's blocks, and its trailer, as bytes.
ghost use Rattle.std.specs.Prelude.{◌≡◌, ◌∷◌, ◌++◌, ◌*◌, length, drop};
ghost use Rattle.format.specs.Blocks.{block_length, carried_length, plan_kind, padded, plan_blocks, two_bytes, trailer};

use format::{BLOCK, CARRIED, COUNT_AT, CYCLE_AT, PLAN, REST_AT, STARTUP_AT, TRAILER};

// A plan's two parts. Cuts has such a struct of its own: this one is no part of what the crate offers.
#[derive(Clone, Copy)]
pub(crate) struct Parts<'a> {
    pub(crate) startup: &'a [u8],
    pub(crate) cycle: &'a [u8],
}

pub(crate) fn blocks(out: &mut [u8], parts: Parts, count: usize)
    requires { length out.old ≡ block_length * count }
    ensures { out.new ≡ plan_blocks count (parts.entry.startup.now ++ parts.entry.cycle.now) }
{
    // No `chunks_exact_mut`: nothing is known of what is written by way of it.
    for i in 0..count {
        block(&mut out[BLOCK * i..BLOCK * i + BLOCK], parts, CARRIED * i);
    }
}

// One block, which carries the entries from `from` on.
fn block(out: &mut [u8], parts: Parts, from: usize)
    requires { length out.old ≡ block_length }
    ensures { out.new ≡ plan_kind ∷ padded carried_length (drop from (parts.entry.startup.now ++ parts.entry.cycle.now)) }
{
    out[0] = PLAN;
    let next = copying::fill(parts.startup, from, out, 1);
    let rest = from.saturating_sub(parts.startup.len());
    let end = copying::fill(parts.cycle, rest, out, next);
    copying::zeros(out, end);
}

pub(crate) fn trailer(out: &mut [u8], count: u16, startup: u16, cycle: u16)
    requires { length out.old ≡ block_length }
    ensures { out.new ≡ trailer count startup cycle }
{
    out[0] = TRAILER;
    out[COUNT_AT..STARTUP_AT].copy_from_slice(&number(count));
    out[STARTUP_AT..CYCLE_AT].copy_from_slice(&number(startup));
    out[CYCLE_AT..REST_AT].copy_from_slice(&number(cycle));
    out[REST_AT..].fill(0);
}

// A 16-bit number, low byte first.
fn number(n: u16) -> [u8; 2]
    ensures { result ≡ two_bytes n }
{
    n.to_le_bytes()
}

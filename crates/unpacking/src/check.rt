// Whether a trailer, and what it covers, is to be refused.
ghost use Rattle.std.specs.Prelude.{◌≡◌, true, false, suc, ◌/◌, ◌<◌, ◌≤◌, length, MatchResult};
ghost use Rattle.format.specs.Blocks.{block_length, largest_length};
ghost use Rattle.format.specs.Newest as newest;

use crate::{Lengths, NoPlan};
use format::{BLOCK, COUNT_AT, CYCLE_AT, PLAN, REST_AT, STARTUP_AT};

// The blocks that a trailer covers, and the lengths of the plan that they carry; refused by the tests in the request's order.
pub(crate) fn covered<'a>(
    before: &'a [u8],
    trailer: &[u8; BLOCK],
) -> Result<(&'a [u8], Lengths), NoPlan>
    ensures { MatchResult result
        (λ p. (newest.is_damaged before.now trailer.now ≡ false) × (p.0.now ≡ newest.covered before.now trailer.now) × (p.1.startup ≡ newest.startup_length trailer.now) × (p.1.cycle ≡ newest.cycle_length trailer.now))
        (λ e. (newest.is_damaged before.now trailer.now ≡ true) × (e ≡ NoPlan.Damaged)) }
{
    let count = number(trailer, COUNT_AT);
    let startup = number(trailer, STARTUP_AT);
    let cycle = number(trailer, CYCLE_AT);
    let entries = startup + cycle;
    if count != format::blocks_for(entries) {
        return Err(NoPlan::Damaged);
    }
    if before.len() < BLOCK * count {
        return Err(NoPlan::Damaged);
    }
    let blocks = &before[before.len() - BLOCK * count..];
    if !all_plan(blocks) {
        return Err(NoPlan::Damaged);
    }
    // First bytes and entries come before the pad.
    let pad = count + entries;
    if !all_zero(&blocks[pad..]) {
        return Err(NoPlan::Damaged);
    }
    if !all_zero(&trailer[REST_AT..]) {
        return Err(NoPlan::Damaged);
    }
    Ok((blocks, Lengths { startup, cycle }))
}

// A 16-bit number from place i on, low byte first.
fn number(bytes: &[u8], i: usize) -> usize
    requires { suc i < length bytes.now }
    ensures read { result ≡ newest.number_at bytes.now i }
    ensures small { result ≤ largest_length }
{
    u16::from_le_bytes([bytes[i], bytes[i + 1]]) as usize
}

fn all_plan(blocks: &[u8]) -> bool
    ensures { result ≡ newest.all_plan (length blocks.now / block_length) blocks.now }
{
    blocks.chunks_exact(BLOCK).all(|block| block[0] == PLAN)
}

fn all_zero(bytes: &[u8]) -> bool
    ensures { result ≡ newest.all_zero bytes.now }
{
    bytes.iter().all(|b| *b == 0)
}

// Reads a list from standard input and prints the answer. Request #101.
#![tactic(auto)]

ghost use Rattle.std.specs.Prelude.{◌≤◌, length, IfOk};

use std::io;
use std::io::{Error, Read};

// One byte more than is read is enough to know that an input is too long.
const ENOUGH: usize = text::MOST_BYTES + 1;

// Reads until `input` is full or standard input ends, and answers how many bytes it has; `read_exact` would not say how many came before
// the end.
fn read_full(stdin: &mut impl Read, input: &mut [u8]) -> io::Result<usize>
    ensures { IfOk result (λ n. n ≤ length input.new) }
{
    let mut n = 0;
    while n < input.len() {
        let more = stdin.read(&mut input[n..])?;
        if more == 0 {
            break;
        }
        n += more;
    }
    Ok(n)
}

// Whether the input ends here. At a terminal there may be more after an end, and half a list is not to be answered.
fn at_end(stdin: &mut impl Read) -> io::Result<bool> {
    let more = stdin.read(&mut [0u8; 1])?;
    Ok(more == 0)
}

// The buffer has room for every output, so that none is short (`printed_whole`).
fn say(rt: &impl Print, input: &[u8]) -> io::Result<()> {
    let mut out = [0u8; output::LONGEST_OUTPUT];
    if let Some(n) = output::answer(input, &mut out) {
        rt.write_all(&out[..n])?;
    }
    Ok(())
}

fn main(rt: HostRuntime) -> io::Result<()> {
    let mut stdin = rt.stdin();
    let mut input = [0u8; ENOUGH];
    let n = read_full(&mut stdin, &mut input)?;
    if n < ENOUGH && !at_end(&mut stdin)? {
        return Err(Error::other("standard input goes on after its end"));
    }
    say(&rt, &input[..n])
}

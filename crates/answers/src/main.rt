// Answers a stream of inputs, for comparing many with another program. A frame is two bytes, the input's length, low byte
// first, and room for the input. An answer is the output and the text of the list that was read, written again, or nothing;
// each is four bytes, its length, low byte first, and its bytes.
#![tactic(auto)]

ghost use Rattle.std.specs.Prelude.{◌<◌};

use std::io;
use std::io::{ErrorKind, Read};

// Inputs that are just too long are among those to compare.
const ROOM: usize = text::MOST_BYTES + 2;

const FRAME: usize = ROOM + 2;

fn send(rt: &impl Print, bytes: &[u8]) -> io::Result<()> {
    let [a, b, c, ..] = bytes.len().to_le_bytes();
    rt.write_all(&[a, b, c, 0])?;
    rt.write_all(bytes)
}

fn say(rt: &impl Print, input: &[u8]) -> io::Result<bool> {
    let mut out = [0u8; output::LONGEST_OUTPUT];
    let Some(n) = output::answer(input, &mut out) else {
        return Ok(false);
    };
    send(rt, &out[..n])?;
    Ok(true)
}

// No text is longer than an input may be (`text_length`).
fn write_again(rt: &impl Print, input: &[u8]) -> io::Result<bool> {
    let Ok(list) = text::read(input) else {
        send(rt, b"")?;
        return Ok(true);
    };
    let mut out = [0u8; text::MOST_BYTES];
    let Ok(n) = writer::write(list.tasks, list.card, list.policy, &mut out) else {
        send(rt, b"")?;
        return Ok(true);
    };
    if out.len() < n {
        return Ok(false);
    }
    send(rt, &out[..n])?;
    Ok(true)
}

// Whether there is a whole frame left, which is then read.
fn next(stdin: &mut impl Read, frame: &mut [u8]) -> io::Result<bool> {
    match stdin.read_exact(frame) {
        Ok(()) => Ok(true),
        Err(error) if error.kind() == ErrorKind::UnexpectedEof => Ok(false),
        Err(error) => Err(error),
    }
}

// Answers one frame, if there is a whole one.
fn one(rt: &impl Print, stdin: &mut impl Read) -> io::Result<bool> {
    let mut frame = [0u8; FRAME];
    if !next(stdin, &mut frame)? {
        return Ok(false);
    }
    let end = usize::from(u16::from_le_bytes([frame[0], frame[1]])) + 2;
    if FRAME < end {
        return Ok(false);
    }
    if !say(rt, &frame[2..end])? {
        return Ok(false);
    }
    write_again(rt, &frame[2..end])
}

// The count lets the loop be proved to end; no run uses it up.
fn main(rt: HostRuntime) -> io::Result<()> {
    let mut stdin = rt.stdin();
    for _ in 0..u64::MAX {
        if !one(&rt, &mut stdin)? {
            return Ok(());
        }
    }
    Ok(())
}

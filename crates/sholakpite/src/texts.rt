// Texts for callers in C and Rust: an input's output, and the text of a list.
ghost use Rattle.words.specs.Words.{wide_card};
ghost use Rattle.sholakpite.specs.Texts.{AnsweredText, WrittenText};

use crate::whole;
use words::list::understood;
use words::{NOT_UNDERSTOOD, list};

// What the program prints for an input, and its length; 0, with nothing written, where `out` is shorter.
#[unsafe(no_mangle)]
pub extern "C" fn sholakpite_answer(input: &[u8], out: &mut [u8]) -> u64
    ensures { AnsweredText input.now out.old result out.new }
{
    output::answer(input, out).unwrap_or(0) as u64
}

// The text of a list of words, O C D T for each task, for a card and a policy, both by number, and its length; or 13, with nothing written.
#[unsafe(no_mangle)]
pub extern "C" fn sholakpite_write_card(card: u64, policy: u64, list: &[u64], out: &mut [u8]) -> u64
    ensures { WrittenText card policy list.now out.old result out.new }
{
    let Some((card, policy)) = understood(card, policy) else {
        return NOT_UNDERSTOOD;
    };
    let Some(own) = whole(list) else {
        return NOT_UNDERSTOOD;
    };
    match writer::write(own, card, policy, out) {
        Ok(length) => length as u64,
        Err(unwritable) => unwritable.number() as u64,
    }
}

// The same, for a wide card: C callers from before there were cards have this name.
#[unsafe(no_mangle)]
pub extern "C" fn sholakpite_write(policy: u64, list: &[u64], out: &mut [u8]) -> u64
    ensures { WrittenText wide_card policy list.now out.old result out.new }
{
    sholakpite_write_card(list::WIDE, policy, list, out)
}

// Bytes and numbers in decimal, laid into a lent buffer one after the other.
#![tactic(auto)]

ghost use Rattle.std.specs.Prelude.{◌≡◌, List, [], ◌∷◌, ℕ, ◌<◌};
ghost use Rattle.decimal.specs.Decimal.{decimal, digit};
ghost use Rattle.decimal.specs.Laying.{Laid, OnPage, Wrote};

const BASE: usize = 10;

// A lent buffer, and the place in it where the next byte goes. Texts are laid on it by pieces, and numbers by hand, not by std's `write!`:
// there is no memory but the buffer, a text is measured before it is written, and no clause of `write!` says that it succeeds.
#[derive(Drop)]
pub struct Page<'a> {
    pub out: &'a mut [u8],
    pub at: usize,
}

impl<'a> Page<'a> {
    // The buffer from its first place on.
    pub fn new(out: &'a mut [u8]) -> Page<'a>
        ensures same_buffer { result.out.ghost_name ≡ out.entry.ghost_name }
        ensures begun { (result.out.now ≡ out.old) × (result.at ≡ 0) }
    {
        Page { out, at: 0 }
    }

    // A byte at its place, if the buffer has one. The place after one that no buffer has may be any, and does not wrap.
    pub fn byte(&mut self, b: u8)
        ensures { OnPage self.old (b ∷ []) self.new }
    {
        self.at = byte(self.out, self.at, b);
    }

    // A word, byte after byte.
    pub fn word(&mut self, text: &[u8])
        ensures { OnPage self.old text.now self.new }
    {
        for b in text {
            self.byte(*b);
        }
    }

    // A number without leading zeros.
    pub fn number(&mut self, n: usize)
        ensures { OnPage self.old (decimal n) self.new }
    {
        self.at = number(self.out, self.at, n);
    }
}

// The same with buffer and place by themselves, for a loop over many bytes: a page is behind a reference, and its place goes through memory
// with each byte. Each answers the place after what it lays.
pub fn byte(out: &mut [u8], at: usize, b: u8) -> usize
    ensures { Laid at (b ∷ []) out.old result out.new }
{
    if out.len() <= at {
        return at.saturating_add(1);
    }
    out[at] = b;
    at + 1
}

pub fn number(out: &mut [u8], at: usize, n: usize) -> usize
    ensures { Laid at (decimal n) out.old result out.new }
{
    if n < BASE {
        return byte(out, at, digit(n));
    }
    let next = number(out, at, n / BASE);
    byte(out, next, digit(n % BASE))
}

// What is written as a text. It is laid on a page piece by piece.
pub trait Text {
    ghost text: { Self → List ℕ };

    fn lay(&self, page: &mut Page)
        ensures { OnPage page.old (text self.now) page.new };
}

// Writes a text, and answers its length; None, with nothing written, where `out` is shorter. It is measured first, by laying it into no buffer.
pub fn write<T: Text>(text: &T, out: &mut [u8]) -> Option<usize>
    ensures { Wrote (T.text text.now) out.old result out.new }
{
    let n = laid(text, &mut []);
    if out.len() < n {
        return None;
    }
    Some(laid(text, out))
}

fn laid<T: Text>(text: &T, out: &mut [u8]) -> usize
    ensures { Laid 0 (T.text text.now) out.old result out.new }
{
    let mut page = Page::new(out);
    text.lay(&mut page);
    page.at
}

fn digit(d: usize) -> u8
    requires { d < 10 }
    ensures { result ≡ digit d }
{
    b'0' + d as u8
}

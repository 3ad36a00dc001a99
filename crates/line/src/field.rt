// Parts of a line: where they end, whether they are a word, and the numbers of fields.
ghost use Rattle.std.specs.Prelude.{◌≡◌};
ghost use Rattle.line.specs.Lines.{same};
ghost use Rattle.line.specs.Places.{until, field_at};

use crate::number::value_of;

pub(crate) const SPACE: u8 = b' ';

// A field's number and where it ends.
#[derive(Clone, Copy, Debug, PartialEq, Eq)]
pub struct Field {
    pub number: usize,
    pub end: usize,
}

// How many bytes stand before the first mark.
pub fn before(s: &[u8], mark: u8) -> usize
    ensures { result ≡ until mark s.now }
{
    s.iter().position(|b| *b == mark).unwrap_or(s.len())
}

// `==` under a name: in the callers it would want `.as_slice()` behind each byte string, and a proof for each that this contract saves.
pub(crate) fn same(a: &[u8], b: &[u8]) -> bool
    ensures { result ≡ same a.now b.now }
{
    a == b
}

// The number after the space at `at`.
pub(crate) fn number_after(line: &[u8], at: usize) -> Option<Field>
    ensures { result ≡ field_at line.now at }
{
    if line.len() <= at {
        return None;
    }
    let from = at + 1;
    let rest = &line[from..];
    let n = before(rest, SPACE);
    let number = value_of(&rest[..n])?;
    Some(Field {
        number,
        end: from + n,
    })
}

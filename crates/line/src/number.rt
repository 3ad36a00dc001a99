// A number in decimal, read from its bytes.
ghost use Rattle.std.specs.Prelude.{◌≡◌};
ghost use Rattle.line.specs.Lines.{number_of, value_on, within};

use crate::LARGEST_NUMBER;

// 0 to 999,999 without leading zeros.
pub(crate) fn value_of(field: &[u8]) -> Option<usize>
    ensures { result ≡ number_of field.now }
{
    match field {
        [] => None,
        [_] => digits(field),
        [first, ..] if *first <= b'0' => None,
        _ => digits(field),
    }
}

// By hand, since the library's `parse` wants a `str`, and takes a plus sign and leading zeros. A value above the limit goes no further, so that none wraps.
fn digits(field: &[u8]) -> Option<usize>
    ensures { result ≡ within (value_on 0 field.now) }
{
    let mut v: usize = 0;
    for b in field {
        if !b.is_ascii_digit() {
            return None;
        }
        v = v * 10 + (*b - b'0') as usize;
        if LARGEST_NUMBER < v {
            return None;
        }
    }
    Some(v)
}

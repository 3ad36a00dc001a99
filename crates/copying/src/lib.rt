// Bytes copied into a lent slice, as many as there are and as fit. Places stand beside the slices, as docs/PROMISES.md names `fill` and `zeros` so.
#![tactic(auto)]

ghost use Rattle.std.specs.Prelude.{◌≡◌, ◌++◌, ◌+◌, ◌-◌, length, take, drop, replicate};

// The bytes of src from `from` on, from place `at` of dst on; answers the place after them.
pub fn fill(src: &[u8], from: usize, dst: &mut [u8], at: usize) -> usize
    ensures place { result ≡ at + length (take (length dst.old - at) (drop from src.now)) }
    ensures copied { dst.new ≡ take at dst.old ++ take (length dst.old - at) (drop from src.now) ++ drop result dst.old }
{
    if src.len() <= from || dst.len() <= at {
        return at;
    }
    let n = (src.len() - from).min(dst.len() - at);
    dst[at..at + n].copy_from_slice(&src[from..from + n]);
    at + n
}

// Zeros from place `at` on.
pub fn zeros(dst: &mut [u8], at: usize)
    ensures { dst.new ≡ take at dst.old ++ replicate (length dst.old - at) 0 }
{
    if at < dst.len() {
        dst[at..].fill(0);
    }
}

// A slot looked up. Document 01, "What comes back".
#![tactic(auto)]

ghost use Rattle.std.specs.Prelude.{◌≡◌};
ghost use Rattle.answer.specs.Tables.{looked};

// The part of one of the two tables that starts at slot t. Nothing is copied: what is handed back is the caller's own.
// The paper has the two tables one by one.
pub fn lookup<'a>(startup: &'a [u8], cycle: &'a [u8], t: usize) -> &'a [u8]
    ensures { result.now ≡ looked startup.now cycle.now t }
{
    if t < startup.len() {
        return &startup[t..];
    }
    // Nothing is divided by the length of an empty cycle: it has no slot, and is handed back as it is.
    if cycle.is_empty() {
        return cycle;
    }
    let i = (t - startup.len()) % cycle.len();
    &cycle[i..]
}

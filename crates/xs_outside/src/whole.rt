//! Writing a piece whole.

ghost use Rattle.std.specs.Prelude.{◌≡◌, ℕ, ◌≤◌, List, ◌++◌, OnOk, OnErr, IfSome};
ghost use Rattle.xs_outside.specs.Edge.{IsBeginning, raised};

use super::edge::{Failed, Sink};

/// Writes all of `bytes`, in as many writes as the sink wants. It needs no memory.
///
/// `Failed` comes of the first write that fails, the only one; the sink then holds a beginning of
/// `bytes` more.
pub fn write_whole<S: Sink>(sink: &mut S, bytes: &[u8]) -> Result<(), Failed>
    ensures count { S.faults sink.old ≤ S.faults sink.new }
    ensures count_stays { OnOk result (S.faults sink.new ≡ S.faults sink.old) }
    ensures count_raised { OnErr result (S.faults sink.new ≡ raised (S.faults sink.old)) }
    ensures held_ok { OnOk result (IfSome (S.held sink.old)
        (λ b. S.held sink.new ≡ Some (b ++ bytes.now))) }
    ensures held_err { OnErr result (IfSome (S.held sink.old)
        (λ b. (part : List ℕ) × IsBeginning part bytes.now
        × (S.held sink.new ≡ Some (b ++ part)))) }
{
    let mut rest = bytes;
    while !rest.is_empty() {
        let taken = sink.write(rest)?;
        rest = &rest[taken..];
    }
    Ok(())
}

//! Writes a reply: its lines first, and then its result.

ghost use Rattle.std.specs.Prelude.{◌≡◌, ◌≢◌, ◌<◌, ◌⊎◌};
ghost use Rattle.xs_reply.specs.declared.status.TheConstants.{OK, WRITE_FAULT};
ghost use Rattle.xs_reply.specs.Headline.{OneFault, Writes};
ghost use Rattle.xs_reply.specs.Reply.{IsWholeOrEmpty, reply_of};

use crate::reply::Reply;
use crate::status::{OK, WRITE_FAULT};
use xs_outside::{Sink, write_whole};

/// Writes the lines of a reply to `err`, and then its result to `out`. Gives the status of the
/// reply, or that of a write that failed; takes no memory.
pub fn deliver<O: Sink, E: Sink>(reply: &Reply, out: &mut O, err: &mut E) -> u8
    requires known { reply.now.status < WRITE_FAULT }
    requires whole_only { IsWholeOrEmpty reply.now }
    ensures status { (result ≡ reply.now.status) ⊎ (result ≡ WRITE_FAULT) }
    ensures writes { Writes (reply_of reply.now) result
        (O.held out.old) (O.held out.new) (E.held err.old) (E.held err.new) }
    ensures untouched { result ≢ OK → result ≢ WRITE_FAULT → O.held out.new ≡ O.held out.old }
    ensures write_fault { result ≡ WRITE_FAULT → OneFault
        (O.faults out.old) (O.faults out.new) (E.faults err.old) (E.faults err.new) }
    ensures no_fault { result ≢ WRITE_FAULT →
        (O.faults out.new ≡ O.faults out.old) × (E.faults err.new ≡ E.faults err.old) }
{
    if write_whole(err, &reply.lines).is_err() {
        return WRITE_FAULT;
    }
    if reply.status == OK && write_whole(out, &reply.result).is_err() {
        return WRITE_FAULT;
    }
    reply.status
}

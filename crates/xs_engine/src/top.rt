//! The top call.

ghost use Rattle.std.specs.Prelude.{◌≡◌, ◌≢◌, ◌<◌, ◌≤◌, ◌⊎◌, [], false, length, None};
ghost use Rattle.xs_reply.specs.declared.status.TheConstants.{NO_MEMORY, READ_FAULT};
ghost use Rattle.xs_reply.specs.declared.status.TheConstants.{REFUSED, USAGE};
ghost use Rattle.xs_words.specs.Results.{texts};
ghost use Rattle.xs_reply.specs.Fetches.{Fetches};
ghost use Rattle.xs_reply.specs.Headline.{AtOnce, Gained, Gives, HasTicks, OfExpected};
ghost use Rattle.xs_reply.specs.Headline.{OnlyExpected};
ghost use Rattle.xs_reply.specs.Job.{is_streamed, request_of, workers_of};
ghost use Rattle.xs_reply.specs.Refusals.{Decides, IsListed};
ghost use Rattle.xs_reply.specs.Reply.{account_of};

use crate::answer::reply_to;
use crate::host::Host;
use std::alloc::Global;
use std::thread::Threads;
use xs_outside::{Gate, Library, Sink};
use xs_reply::deliver::deliver;
use xs_reply::report::{Report, refused_memory, report_of};

/// Runs the processor on the arguments after its name.
///
/// Files come from `library`, the result goes to `out`, and lines for the user go to `err`. The
/// report has the status.
pub fn transform<R: Threads + Sync, L: Library, O: Sink, E: Sink, G: Gate>(
    rt: &R,
    alloc: Global,
    words: &[String],
    library: &mut L,
    out: &mut O,
    err: &mut E,
    gate: &G,
) -> Report
    // Which names are asked for, and which of them may fail.
    ensures files { L.files library.new ≡ L.files library.old }
    ensures fetches { Fetches (request_of (texts words.now)) (L.files library.old)
        (L.asked library.old) (L.asked library.new) (L.failed library.old) (L.failed library.new) }

    // What the arguments and the files define is what the report and the sinks get; and the lines
    // of a result read back as what stays of what that run put, by themselves where they are one
    // document, unless they are too large.
    ensures gives { result.status ≢ NO_MEMORY
        → OfExpected (L.files library.old) (request_of (texts words.now))
        (L.failed library.old) (L.failed library.new)
        (λ expected. Gives (is_streamed (request_of (texts words.now)))
        (workers_of (request_of (texts words.now))) expected (account_of result)
        (O.held out.old) (O.held out.new) (E.held err.old) (E.held err.new)) }

    // Where the files are known, the arguments and these files define one answer alone.
    ensures only { OnlyExpected (L.files library.old) (request_of (texts words.now))
        (L.failed library.old) (L.failed library.new)
        (λ expected. Gives (is_streamed (request_of (texts words.now)))
        (workers_of (request_of (texts words.now))) expected (account_of result)
        (O.held out.old) (O.held out.new) (E.held err.old) (E.held err.new)) }

    // A stylesheet is refused for a static fault alone, the least, and a source for its first bad
    // line. Where the files are known, and all that were asked for were read, they decide it: with
    // such a fault a run is refused, and without one it is evaluated.
    ensures refused_only { result.status ≡ REFUSED →
        IsListed (request_of (texts words.now)) (L.files library.old) result.fault }
    ensures decided { L.failed library.new ≡ L.failed library.old →
        Decides (request_of (texts words.now)) (L.files library.old) result.status }

    // What a status says, whatever the files.
    ensures status { result.status ≤ NO_MEMORY }
    ensures usage_only { result.status ≡ USAGE → request_of (texts words.now) ≡ None }
    ensures read_fault_only { result.status ≡ READ_FAULT
        → length (L.failed library.old) < length (L.failed library.new) }
    ensures ticks { HasTicks result.status ⊎ (result.ticks ≡ 0) }
    ensures unexplained { result.status ≡ NO_MEMORY → result.fault ≡ None }
    ensures pieces { HasTicks result.status ⊎ ((result.pieces ≡ 0) × (result.inline ≡ 0)
        × (result.claims.items ≡ []) × (result.worked ≡ 0)) }

    // The result is written once the evaluation has ended, which is so of every run, as yet.
    ensures at_once { is_streamed (request_of (texts words.now)) ≡ false → AtOnce result.status
        (O.held out.old) (O.held out.new)
        (O.faults out.old) (O.faults out.new) (E.faults err.old) (E.faults err.new) }
    ensures unstreamed { is_streamed (request_of (texts words.now)) ≡ false }

    // The sinks keep what they hold.
    ensures out_extends { Gained (O.held out.old) (O.held out.new) (λ _. Unit {0}) }
    ensures err_extends { Gained (E.held err.old) (E.held err.new) (λ _. Unit {0}) }
    ensures no_memory { result.status ≡ NO_MEMORY → E.held err.new ≡ E.held err.old }
{
    let host = Host { rt, alloc, gate };
    match reply_to(&host, words, library) {
        Ok(reply) => {
            let status = deliver(&reply, out, err);
            report_of(status, reply)
        }
        Err(_) => refused_memory(alloc),
    }
}

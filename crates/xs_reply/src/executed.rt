//! What the pieces of a run came to, as a reply.

ghost use Rattle.std.specs.Prelude.{◌≡◌, ◌≤◌, ◌+◌, ◌⊎◌, IfOk};
ghost use Rattle.xs_body_spec.specs.Globals.{settled, SettlesAll, Table};
ghost use Rattle.xs_body_spec.specs.World.{World};
ghost use Rattle.xs_reply.specs.declared.status.TheConstants.{OK, RUN_FAULT};
ghost use Rattle.xs_reply.specs.Evaluation.{IsEvaluated};
ghost use Rattle.xs_reply.specs.Ran.{IsRan, pieces_of};
ghost use Rattle.xs_reply.specs.Reply.{IsWholeOrEmpty, Replies, job_data};
ghost use Rattle.xs_result_laws.specs.Named.{IsNamedWorld};

use crate::job::Job;
use crate::reply::{Pieces, Reply, stopped_reply, whole_reply, with_pieces, with_stats};
use std::alloc::{AllocError, Global};
use xs_assemble::assembled::{Assembled, Executed};
use xs_sheet::sheet::Sheet;
use xs_text::TextBuf;

/// What the root's pieces came to, as a reply: after the messages and ticks of the globals.
pub fn executed_reply(
    alloc: Global,
    job: &Job,
    sheet: &Sheet,
    says: &[TextBuf],
    ticks: u64,
    executed: Executed,
) -> Result<Reply, AllocError>
    requires within { ticks + executed.assembled.ticks ≤ job.now.budget }
    ensures answer { (w : World) (t : Table) → sheet.now ≡ w.sheet →
        t.says ≡ says.now → t.ticks ≡ ticks →
        SettlesAll w (job_data job.now).given job.now.budget (settled t) →
        IsRan (job_data job.now) job.now.workers w t executed →
        IfOk result (Replies job.now.workers (IsNamedWorld w) (IsEvaluated (job_data job.now) w)) }
    ensures pieces { IfOk result (λ reply. reply.pieces ≡ pieces_of executed) }
    ensures status { IfOk result (λ reply.
        (reply.status ≡ OK) ⊎ (reply.status ≡ RUN_FAULT)) }
    ensures whole_only { IfOk result IsWholeOrEmpty }
{
    xs_result_laws::puts::runs_put_results();
    let Executed {
        assembled,
        claims,
        worked,
    } = executed;
    let Assembled {
        items,
        says: more,
        end,
        ticks: taken,
        inline,
        ..
    } = assembled;
    let all = ticks + taken;
    let pieces = Pieces {
        claims,
        inline,
        worked,
        items,
    };
    match end {
        None => {
            let reply = whole_reply(alloc, sheet.method, says, &more, &pieces.items, all)?;
            with_stats(reply, pieces, job.stats)
        }
        Some(spot) => {
            let reply = stopped_reply(alloc, sheet, spot, says, &more, all)?;
            Ok(with_pieces(reply, pieces))
        }
    }
}

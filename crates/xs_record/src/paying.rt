//! How ticks are added to a total.
ghost use Rattle.std.specs.Prelude.{◌≡◌, ℕ, ◌+◌, ◌≤◌, Some, IfOk};
ghost use Rattle.xs_trace.specs.Total.{over};
ghost use Rattle.xs_record.specs.Paying.{IsOpen, IsPaid, ended_in};

use xs_trace::item::Ended;
use xs_trace::recorder::Halt;
use xs_trace::total::Total;

/// Adds ticks, and ends the run where the total is above the most.
pub(crate) fn pay<T: Total>(total: &mut T, count: u64) -> Result<(), Halt>
    requires few { count ≤ 1024 }
    requires open { T.last total.old ≤ T.most total.old }
    ensures kept { T.kept total.new ≡ T.kept total.old }
    ensures most { T.most total.new ≡ T.most total.old }
    ensures added { T.added total.new ≡ T.added total.old + count }
    ensures paid { IsPaid (T.most total.old) result (T.last total.new) }
{
    let limit = total.limit();
    let sum = total.add(count);
    if sum > limit {
        return Err(Halt::Over { total: sum });
    }
    Ok(())
}

/// Adds what is unpaid at the end of a run, and answers how it ended.
pub(crate) fn settle<T: Total>(total: &mut T, unpaid: u64, ended: Ended) -> Ended
    requires few { unpaid ≤ 1024 }
    requires open { IsOpen (T.most total.old) (T.last total.old) unpaid }
    ensures kept { T.kept total.new ≡ T.kept total.old }
    ensures most { T.most total.new ≡ T.most total.old }
    ensures added { T.added total.new ≡ T.added total.old + unpaid }
    ensures stays { (t : ℕ) → over (T.most total.old) (T.last total.old) ≡ Some t →
        over (T.most total.old) (T.last total.new) ≡ Some t }
    ensures ended { result ≡ ended_in (over (T.most total.old) (T.last total.new)) ended }
{
    if unpaid > 0 {
        let _sum = total.add(unpaid);
    }
    match total.above() {
        Some(total) => Ended::Over { total },
        None => ended,
    }
}

//! What is left of a limit on events.
ghost use Rattle.std.specs.Prelude.{◌≡◌, if◌then◌else◌};
ghost use Rattle.xs_trace.specs.Cut.{less};
ghost use Rattle.xs_trace.specs.State.{allows};

/// Takes one from what is left, where there is a limit.
pub(crate) fn spend(left: &mut Option<u64>) -> bool
    ensures answer { result ≡ allows left.old 1 }
    ensures left { left.new ≡ (if result then less left.old 1 else left.old) }
{
    match *left {
        None => true,
        Some(0) => false,
        Some(n) => {
            *left = Some(n - 1);
            true
        }
    }
}

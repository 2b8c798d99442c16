//! What is true of the evaluation. The functions do nothing: their contracts are the laws.

ghost use Rattle.xs_body_spec.specs.Laws.{AttemptsAreTheSame, AttemptsNeed, CapturedLeavesNothing};
ghost use Rattle.xs_body_spec.specs.Laws.{CapturedSays, CapturedTakesTicks, LevelsSuffice};
ghost use Rattle.xs_body_spec.specs.Laws.{SettledNeedsNothing};
ghost use Rattle.xs_body_spec.specs.Laws.{SettlingIsTheSame, TasksAreTheSame, TasksBegin};
ghost use Rattle.xs_body_spec.specs.Laws.{TasksFall, TasksFill, TasksNeed};

/// What is done with a grain, each hole filled by its task, is what is done without one.
pub fn tasks_fill()
    ensures { TasksFill }
{}

/// Captured content leaves no holes.
pub fn captured_leaves_nothing()
    ensures { CapturedLeavesNothing }
{}

/// Captured content takes its ticks and says its messages as if it were not captured.
pub fn captured_is_taken()
    ensures ticks { CapturedTakesTicks }
    ensures messages { CapturedSays }
{}

/// A task, and an attempt at a global, need a global only where that has no value yet.
pub fn need_is_unsettled()
    ensures tasks { TasksNeed }
    ensures attempts { AttemptsNeed }
{}

/// Where all globals have values, a task needs none.
pub fn settled_needs_nothing()
    ensures { SettledNeedsNothing }
{}

/// Nothing that is done depends on the index by which attribute sets are found.
pub fn index_is_free()
    ensures tasks { TasksAreTheSame }
    ensures attempts { AttemptsAreTheSame }
    ensures settling { SettlingIsTheSame }
{}

/// The tree of tasks ends: a rank falls from each task to those that it leaves.
pub fn tasks_fall()
    ensures { TasksFall }
{}

/// Each task that is left has nodes, and begins with a tick, where the grain is not 0.
pub fn tasks_begin()
    ensures { TasksBegin }
{}

/// Attribute sets that use one another are begun in full: more levels of them than there are
/// declarations change nothing.
pub fn levels_suffice()
    ensures { LevelsSuffice }
{}

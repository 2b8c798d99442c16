//! What is true of the tree of tasks of a stylesheet. The functions do nothing: their contracts
//! are the laws.

ghost use Rattle.xs_task_laws.specs.Laws.{SheetFalls, SheetIsReady, TasksStayInside, WholeIsRun};

/// What a task leaves has its nodes in the documents, where the task has.
pub fn tasks_stay_inside()
    ensures { TasksStayInside }
{}

/// Where all globals have values, and the grain is not 0, the tree of any task can be run in
/// pieces; and it ends.
pub fn sheet_is_ready()
    ensures ready { SheetIsReady }
    ensures falls { SheetFalls }
{}

/// All that a task does with what it leaves is what it does without a grain.
pub fn whole_is_run()
    ensures { WholeIsRun }
{}

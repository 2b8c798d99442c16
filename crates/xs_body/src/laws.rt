//! What is true of the steps on the stack. The functions do nothing: their contracts are the laws.

ghost use Rattle.xs_body.specs.Laws.{StepsAgree, TasksBegin};

/// A step reports the beginning of what the stack represents, and leaves the rest to be done.
pub fn steps_agree()
    ensures { StepsAgree }
{}

/// What is said of a task is what the stack represents that it begins with.
pub fn tasks_begin()
    ensures { TasksBegin }
{}

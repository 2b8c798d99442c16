//! What is true of compiled stylesheets. The functions do nothing: their contracts are the laws.

ghost use Rattle.xs_compile.specs.Laws.{OneSheet};

/// The modules of a stylesheet have one compiled stylesheet, whatever compiles them.
pub fn one_sheet()
    ensures { OneSheet }
{}

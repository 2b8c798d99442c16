//! What is true of sound stylesheets. The functions do nothing: their contracts are the laws.

ghost use Rattle.xs_sheet.specs.Laws.{TemplatesHaveSlots};

/// The parameters of a template and the variables that stand directly in its body are fewer than
/// 2^32 together.
pub fn templates_have_slots()
    ensures { TemplatesHaveSlots }
{}

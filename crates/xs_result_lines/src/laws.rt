//! What is true of the lines of a result. The functions do nothing: their contracts are the laws.
ghost use Rattle.xs_result_lines.specs.Laws.{DefaultIsUndone, ElementsGoOn, LinesGoOn};
ghost use Rattle.xs_result_lines.specs.Laws.{NamesResolve, TwoUrisOfOnePrefix};

/// The lines of a list go part by part, where no start tag is cut: so a writer may take one event
/// that stays after another, and what it has written is a beginning of the whole.
pub fn lines_go_on()
    ensures lines { LinesGoOn }
    ensures elements { ElementsGoOn }
{}

/// Inside its own start tag the name of an element and those of its attributes resolve to the
/// namespaces that they were put with (Namespaces in XML 1.0, 5 and 6).
pub fn names_resolve()
    ensures { NamesResolve }
{}

/// Two worked examples: attributes whose prefixes clash, and a default namespace that is undone.
pub fn worked_examples()
    ensures clash { TwoUrisOfOnePrefix }
    ensures default { DefaultIsUndone }
{}

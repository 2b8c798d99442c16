//! What is true of documents. The functions do nothing: their contracts are the laws.

ghost use Rattle.xs_build.specs.DocumentLaws.{DocumentsAreTrees, DocumentsFollowGrammar};
ghost use Rattle.xs_build.specs.DocumentLaws.{GrammarIsEnough, LinesGoByStep, NamesResolve};

/// Bytes that are not refused represent the tree of one well-formed document (XPath 1.0, 5).
pub fn documents_are_trees()
    ensures { DocumentsAreTrees }
{}

/// A prefix represents what the innermost open element that declares it says (Namespaces in XML
/// 1.0, 6.1).
pub fn names_resolve()
    ensures { NamesResolve }
{}

/// What the lines of a document say is by the grammar: one element, and around it white space,
/// comments and instructions (XML 1.0, 2.1).
pub fn documents_follow_grammar()
    ensures { DocumentsFollowGrammar }
{}

/// Bytes whose lines are by the grammar are refused for a name, a prefix, a second attribute of one
/// name, a declaration or their size, if at all.
pub fn grammar_is_enough()
    ensures { GrammarIsEnough }
{}

/// What lines represent by the lines around each is what they represent one by one. An induction
/// over the lines of a document goes by this.
pub fn lines_go_by_step()
    ensures { LinesGoByStep }
{}

//! What is true of the grammar. The functions do nothing: their contracts are the laws.

ghost use Rattle.xs_parser.specs.Laws.{OneTree, OneTreeOfText, OutcomeIsReported, SyntaxIsReported};
ghost use Rattle.xs_parser.specs.Laws.{TextsHaveTokens, TokensAreRead};
ghost use Rattle.xs_parser.specs.TemplateLaws.{TemplateIsReported, TemplateSyntaxIsReported};
ghost use Rattle.xs_parser.specs.TemplateLaws.{TemplatesAreCut};

/// Tokens spell by the rules the tree that the function `tree_of` gives, and no other.
pub fn tokens_are_read()
    ensures { TokensAreRead }
{}

/// Tokens spell at most one tree.
pub fn one_tree()
    ensures { OneTree }
{}

/// A text has by the rules the tokens that the function `lexemes_in` gives, and no others.
pub fn texts_have_tokens()
    ensures { TextsHaveTokens }
{}

/// A text represents at most one tree in a scope.
pub fn one_tree_of_text()
    ensures { OneTreeOfText }
{}

/// Which texts are reported to be in no spelling of the grammar.
pub fn syntax_is_reported()
    ensures { SyntaxIsReported }
{}

/// What is reported of the others.
pub fn outcome_is_reported()
    ensures { OutcomeIsReported }
{}

/// A value template has by the rules the pieces that the function `cut` gives, and no others.
pub fn templates_are_cut()
    ensures { TemplatesAreCut }
{}

/// Which texts are reported to be no value templates.
pub fn template_syntax_is_reported()
    ensures { TemplateSyntaxIsReported }
{}

/// What is reported of the others.
pub fn template_is_reported()
    ensures { TemplateIsReported }
{}

//! The language of a node (XPath 1.0, 4.3, `lang`).

ghost use Rattle.std.specs.Prelude.{◌≡◌, ◌<◌, [], filter, length, IfSome};
ghost use Rattle.std.specs.Prelude.{Some, None, slice_get};
ghost use Rattle.xs_tree.specs.Record.{attributes};
ghost use Rattle.xs_eval_spec.specs.Languages.{is_in_language, is_lang, is_language};
ghost use Rattle.xs_eval_spec.specs.Languages.{lang_attributes};
ghost use Rattle.xs_eval.specs.steps.Languages.{is_part, is_same_word};

use xs_axes::axis_nodes;
use xs_text::XML_URI;
use xs_tree::{Axis, Node, Tree};

/// Whether a node is in a language, or in a part of it, by its nearest attribute `xml:lang`.
#[tactic(auto, unfolding(xs_eval_spec::specs::Languages::is_in_language))]
pub(crate) fn is_in_language(tree: &Tree, node: Node, wanted: &str) -> bool
    requires { node < length tree.now }
    ensures { result ≡ is_in_language tree.now node wanted.now }
{
    match nearest_lang(tree, node) {
        Some(attribute) => is_language(tree.text(attribute), wanted),
        None => false,
    }
}

// The nearest attribute `xml:lang` of a node and its ancestors.
fn nearest_lang(tree: &Tree, node: Node) -> Option<Node>
    requires { node < length tree.now }
    ensures first { result ≡ slice_get (lang_attributes tree.now node) 0 }
    ensures inside { IfSome result (λ k. k < length tree.now) }
{
    for element in axis_nodes(tree, node, Axis::AncestorOrSelf) {
        if let Some(attribute) = lang_of(tree, element) {
            return Some(attribute);
        }
    }
    None
}

// The attribute `xml:lang` of a node.
fn lang_of(tree: &Tree, node: Node) -> Option<Node>
    requires { node < length tree.now }
    ensures first { result ≡ slice_get (filter (is_lang tree.now) (attributes tree.now node)) 0 }
    ensures inside { IfSome result (λ k. k < length tree.now) }
{
    for attribute in tree.attributes(node) {
        if is_lang(tree, attribute) {
            return Some(attribute);
        }
    }
    None
}

// Whether an attribute is `xml:lang`.
fn is_lang(tree: &Tree, node: Node) -> bool
    requires { node < length tree.now }
    ensures { result ≡ is_lang tree.now node }
{
    tree.uri(node) == XML_URI && tree.local(node) == "lang"
}

// Whether a language is another one, or is so without a suffix that begins with `-`.
fn is_language(language: &str, wanted: &str) -> bool
    ensures { result ≡ is_language language.now wanted.now }
{
    match language.as_bytes().split_at_checked(wanted.len()) {
        Some((front, rest)) => is_same_word(front, wanted.as_bytes()) && is_part(rest),
        None => false,
    }
}

// Whether two words are the same, without regard to the case of letters.
fn is_same_word(word: &[u8], other: &[u8]) -> bool
    ensures { result ≡ is_same_word word.now other.now }
{
    word.eq_ignore_ascii_case(other)
}

// Whether this may follow a language in one that is a part of it: nothing, or a suffix.
fn is_part(rest: &[u8]) -> bool
    ensures { result ≡ is_part rest.now }
{
    match rest {
        [] => true,
        [first, ..] => *first == b'-',
    }
}

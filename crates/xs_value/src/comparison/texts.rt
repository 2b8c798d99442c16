//! Values compared as strings.

ghost use Rattle.std.specs.Prelude.{◌≡◌, ◌==◌, ◌<◌, List, length, false, IfOk, Ok};
ghost use Rattle.std.specs.Cow.{cow_str_bytes};
ghost use Rattle.std.specs.List.{All, list_any};
ghost use Rattle.std.specs.Str.{bytes_eq};
ghost use Rattle.xs_tree.specs.Record.{Record};
ghost use Rattle.xs_value.specs.Comparison.{compared, is_boolean, is_numeral};
ghost use Rattle.xs_value.specs.Conversion.{IsIn};
ghost use Rattle.xs_value.specs.steps.Operands.{AreTextsIn, KeepsTexts, compared_as};
ghost use Rattle.xs_value.specs.TextIndexes.{is_indexed};
ghost use Rattle.xs_value.specs.steps.Operands.{first_of, has_others, is_other};
ghost use Rattle.xs_value.specs.steps.Operands.{kept_texts, node_texts, some_different, some_equal};
ghost use Rattle.xs_value.specs.declared.comparison.ComparedAs.TheVariants.{Strings as AsStrings};

use super::CompareOp;
use crate::conversion::{events_text, node_text};
use crate::text_indexes::{TextIndex, index_texts};
use crate::value::Value;
use std::alloc::{AllocError, Global};
use std::borrow::CowStr;
use xs_tree::{Node, Tree};

// The strings that represent an operand.
#[derive(Drop)]
enum Texts<'a> {
    // That of a value that is no node-set.
    One(CowStr<'a, Global>),
    // Those of nodes.
    Nodes(&'a [Node]),
}

/// Compares two values as strings by `=` or `!=`, of which neither is a boolean or a number: in
/// time linear in their sizes.
pub(super) fn compare_texts(
    alloc: Global,
    tree: &Tree,
    op: CompareOp,
    left: &Value,
    right: &Value,
) -> Result<bool, AllocError>
    requires left { IsIn tree.now left.now }
    requires right { IsIn tree.now right.now }
    requires strings { compared_as op left.now right.now ≡ AsStrings }
    ensures { IfOk result (λ holds. compared tree.now op left.now right.now ≡ Ok holds) }
{
    let left = texts_of(alloc, left)?;
    let right = texts_of(alloc, right)?;
    match op {
        CompareOp::Eq => some_equal(alloc, tree, &left, &right),
        _ => some_different(alloc, tree, &left, &right),
    }
}

// The strings that represent a value that is neither a boolean nor a number.
fn texts_of(alloc: Global, v: &Value) -> Result<Texts<'_>, AllocError>
    requires boolean { is_boolean v.now ≡ false }
    requires number { is_numeral v.now ≡ false }
    ensures { IfOk result (KeepsTexts v.now) }
{
    match v {
        Value::Bool(_) | Value::Number(_) => unreachable!(),
        Value::Chars(text) => Ok(Texts::One(CowStr::Borrowed(text.as_str()))),
        Value::Nodes(nodes) => Ok(Texts::Nodes(nodes.nodes())),
        Value::Piece(fragment) => Ok(Texts::One(events_text(alloc, fragment.events())?)),
    }
}

// Whether some string of the left operand is one of the right.
fn some_equal(
    alloc: Global,
    tree: &Tree,
    left: &Texts<'_>,
    right: &Texts<'_>,
) -> Result<bool, AllocError>
    requires left { AreTextsIn tree.now left.now }
    requires right { AreTextsIn tree.now right.now }
    ensures { IfOk result (λ holds. holds ≡ some_equal (kept_texts tree.now left.now)
        (kept_texts tree.now right.now)) }
{
    match (left, right) {
        (Texts::One(text), _) => has_text(alloc, tree, right, text.as_str()),
        (_, Texts::One(text)) => has_text(alloc, tree, left, text.as_str()),
        (Texts::Nodes(left), Texts::Nodes(right)) => share_text(alloc, tree, left, right),
    }
}

// Whether some string is this one.
fn has_text(alloc: Global, tree: &Tree, texts: &Texts<'_>, text: &str) -> Result<bool, AllocError>
    requires { AreTextsIn tree.now texts.now }
    ensures { IfOk result (λ has. has ≡ list_any (bytes_eq text.now)
        (kept_texts tree.now texts.now)) }
{
    match texts {
        Texts::One(other) => Ok(text == other.as_str()),
        Texts::Nodes(nodes) => nodes_have_text(alloc, tree, nodes, text),
    }
}

// Whether the string-value of some node is this one.
fn nodes_have_text(
    alloc: Global,
    tree: &Tree,
    nodes: &[Node],
    text: &str,
) -> Result<bool, AllocError>
    requires { All (λ n. n < length tree.now) nodes.now }
    ensures { IfOk result (λ has. has ≡ list_any (bytes_eq text.now)
        (node_texts tree.now nodes.now)) }
{
    for node in nodes {
        if text == node_text(alloc, tree, *node)?.as_str() {
            return Ok(true);
        }
    }
    Ok(false)
}

// Whether two lists of nodes have a string-value in common.
fn share_text(alloc: Global, tree: &Tree, left: &[Node], right: &[Node]) -> Result<bool, AllocError>
    requires left { All (λ n. n < length tree.now) left.now }
    requires right { All (λ n. n < length tree.now) right.now }
    ensures { IfOk result (λ holds. holds ≡ some_equal (node_texts tree.now left.now)
        (node_texts tree.now right.now)) }
{
    if right.len() < left.len() {
        share_text_of_few(alloc, tree, right, left)
    } else {
        share_text_of_few(alloc, tree, left, right)
    }
}

// Whether two lists of nodes, the shorter one first, have a string-value in common: by an index of
// the first one.
fn share_text_of_few(
    alloc: Global,
    tree: &Tree,
    few: &[Node],
    many: &[Node],
) -> Result<bool, AllocError>
    requires few { All (λ n. n < length tree.now) few.now }
    requires many { All (λ n. n < length tree.now) many.now }
    ensures { IfOk result (λ holds. holds ≡ some_equal (node_texts tree.now few.now)
        (node_texts tree.now many.now)) }
{
    if few.len() < 2 {
        return share_text_in_turn(alloc, tree, few, many);
    }
    let index = index_texts(alloc, tree, few)?;
    has_indexed(alloc, tree, &index, many)
}

// Whether the string-value of some node is in an index.
fn has_indexed(
    alloc: Global,
    tree: &Tree,
    index: &TextIndex<'_>,
    nodes: &[Node],
) -> Result<bool, AllocError>
    requires { All (λ n. n < length tree.now) nodes.now }
    ensures { IfOk result (λ has. has ≡ list_any (is_indexed index.now.keys)
        (node_texts tree.now nodes.now)) }
{
    for node in nodes {
        let text = node_text(alloc, tree, *node)?;
        if (&*index).contains(&text) {
            return Ok(true);
        }
    }
    Ok(false)
}

// Whether two lists of nodes have a string-value in common: each of the first list with each of the
// second, where the first has at most one.
fn share_text_in_turn(
    alloc: Global,
    tree: &Tree,
    few: &[Node],
    many: &[Node],
) -> Result<bool, AllocError>
    requires few { All (λ n. n < length tree.now) few.now }
    requires many { All (λ n. n < length tree.now) many.now }
    ensures { IfOk result (λ holds. holds ≡ some_equal (node_texts tree.now few.now)
        (node_texts tree.now many.now)) }
{
    for node in few {
        let text = node_text(alloc, tree, *node)?;
        if nodes_have_text(alloc, tree, many, text.as_str())? {
            return Ok(true);
        }
    }
    Ok(false)
}

// Whether some string of the left operand is another than one of the right: so it is unless one has
// none or all of both are one and the same.
fn some_different(
    alloc: Global,
    tree: &Tree,
    left: &Texts<'_>,
    right: &Texts<'_>,
) -> Result<bool, AllocError>
    requires left { AreTextsIn tree.now left.now }
    requires right { AreTextsIn tree.now right.now }
    ensures { IfOk result (λ holds. holds ≡ some_different (kept_texts tree.now left.now)
        (kept_texts tree.now right.now)) }
{
    if is_empty(left) {
        return Ok(false);
    }
    if is_empty(right) {
        return Ok(false);
    }
    let text = first_text(alloc, tree, left)?;
    has_other_in_both(alloc, tree, left, right, text.as_str())
}

// Whether some string of the one or the other operand is another than this one.
fn has_other_in_both(
    alloc: Global,
    tree: &Tree,
    left: &Texts<'_>,
    right: &Texts<'_>,
    text: &str,
) -> Result<bool, AllocError>
    requires left { AreTextsIn tree.now left.now }
    requires right { AreTextsIn tree.now right.now }
    ensures { IfOk result (λ has. has ≡ has_others text.now (kept_texts tree.now left.now)
        (kept_texts tree.now right.now)) }
{
    if has_other(alloc, tree, right, text)? {
        return Ok(true);
    }
    has_other(alloc, tree, left, text)
}

// Whether there is no string.
fn is_empty(texts: &Texts<'_>) -> bool
    ensures { (rs : List Record) → result ≡ (length (kept_texts rs texts.now) == 0) }
{
    match texts {
        Texts::One(_) => false,
        Texts::Nodes(nodes) => nodes.is_empty(),
    }
}

// The first string.
fn first_text<'a>(
    alloc: Global,
    tree: &'a Tree,
    texts: &'a Texts<'_>,
) -> Result<CowStr<'a, Global>, AllocError>
    requires inside { AreTextsIn tree.now texts.now }
    requires some { 0 < length (kept_texts tree.now texts.now) }
    ensures { IfOk result (λ text. cow_str_bytes text ≡ first_of (kept_texts tree.now texts.now)) }
{
    match texts {
        Texts::One(text) => Ok(CowStr::Borrowed(text.as_str())),
        Texts::Nodes(nodes) => node_text(alloc, tree, nodes[0]),
    }
}

// Whether some string is another than this one.
fn has_other(alloc: Global, tree: &Tree, texts: &Texts<'_>, text: &str) -> Result<bool, AllocError>
    requires { AreTextsIn tree.now texts.now }
    ensures { IfOk result (λ has. has ≡ list_any (is_other text.now)
        (kept_texts tree.now texts.now)) }
{
    match texts {
        Texts::One(other) => Ok(text != other.as_str()),
        Texts::Nodes(nodes) => nodes_have_other(alloc, tree, nodes, text),
    }
}

// Whether the string-value of some node is another than this one.
fn nodes_have_other(
    alloc: Global,
    tree: &Tree,
    nodes: &[Node],
    text: &str,
) -> Result<bool, AllocError>
    requires { All (λ n. n < length tree.now) nodes.now }
    ensures { IfOk result (λ has. has ≡ list_any (is_other text.now)
        (node_texts tree.now nodes.now)) }
{
    for node in nodes {
        if text != node_text(alloc, tree, *node)?.as_str() {
            return Ok(true);
        }
    }
    Ok(false)
}

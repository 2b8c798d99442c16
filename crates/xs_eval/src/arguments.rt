//! The arguments of a call, and values that are made of texts, nodes and numbers.

ghost use Rattle.std.specs.Prelude.{◌≡◌, ◌<◌, ◌∷◌, [], IfOk, IfSome, Ok, length, pos};
ghost use Rattle.std.specs.List.{All};
ghost use Rattle.std.specs.Cow.{cow_str_bytes};
ghost use Rattle.std.specs.Str.{IsUtf8};
ghost use Rattle.xs_num.specs.Number.{bounded};
ghost use Rattle.xs_value.specs.Conversion.{IsIn, bool_value, number_value, text_value};
ghost use Rattle.xs_eval_spec.specs.Functions.{argument, first_node, first_or_node};
ghost use Rattle.xs_eval_spec.specs.Results.{Answers, AnswersBy, natural, nodes_in, numeric};
ghost use Rattle.xs_value.specs.declared.value.Value.TheVariants.{Bool, Number, Chars, Nodes};

use crate::operand::Operand;
use std::alloc::{AllocError, Global};
use std::borrow::CowStr;
use xs_eval_spec::context::Context;
use xs_eval_spec::trouble::{Trouble, or_trouble};
use xs_num::number::{Num, NumFault};
use xs_num::reading::read_num;
use xs_text::TextBuf;
use xs_trace::fault::Fault;
use xs_tree::{Node, Tree};
use xs_value::conversion::{node_text, to_number};
use xs_value::node_set::NodeSet;
use xs_value::value::{Value, ValueFault};

/// A value as a number (XPath 1.0, 4.4).
pub(crate) fn number_of(alloc: Global, tree: &Tree, v: &Value) -> Result<Num, Trouble>
    requires { IsIn tree.now v.now }
    ensures number { Answers (numeric (number_value tree.now v.now)) result }
{
    match to_number(alloc, tree, v) {
        Ok(number) => Ok(number),
        Err(ValueFault::Fraction) => Err(Trouble::Fault(Fault::Fraction)),
        Err(ValueFault::Range) => Err(Trouble::Fault(Fault::Range)),
        Err(ValueFault::NoMemory) => Err(Trouble::NoMemory),
    }
}

/// The nodes of a value, which has to be a node-set (XPath 1.0, 3.3).
pub(crate) fn nodes_of(v: &Value) -> Result<&[Node], Trouble>
    ensures nodes { AnswersBy (λ ns. ns.now) (nodes_in v.now) result }
{
    match v {
        Value::Nodes(nodes) => Ok(nodes.nodes()),
        Value::Bool(_) => Err(Trouble::Fault(Fault::NotNodes)),
        Value::Number(_) => Err(Trouble::Fault(Fault::NotNodes)),
        Value::Chars(_) => Err(Trouble::Fault(Fault::NotNodes)),
        Value::Piece(_) => Err(Trouble::Fault(Fault::NotNodes)),
    }
}

/// A value as a node-set, which it has to be (XPath 1.0, 3.3).
pub(crate) fn set_of(v: &Value) -> Result<&NodeSet, Trouble>
    ensures nodes { AnswersBy (λ ns. ns.now) (nodes_in v.now) result }
{
    match v {
        Value::Nodes(nodes) => Ok(nodes),
        Value::Bool(_) => Err(Trouble::Fault(Fault::NotNodes)),
        Value::Number(_) => Err(Trouble::Fault(Fault::NotNodes)),
        Value::Chars(_) => Err(Trouble::Fault(Fault::NotNodes)),
        Value::Piece(_) => Err(Trouble::Fault(Fault::NotNodes)),
    }
}

/// The node-set that a value has to be (XPath 1.0, 3.3).
#[inline(always)]
pub(crate) fn into_set(v: Value) -> Result<NodeSet, Trouble>
    ensures nodes { Answers (nodes_in v) result }
{
    match v {
        Value::Nodes(nodes) => Ok(nodes),
        Value::Bool(_) => Err(Trouble::Fault(Fault::NotNodes)),
        Value::Number(_) => Err(Trouble::Fault(Fault::NotNodes)),
        Value::Chars(_) => Err(Trouble::Fault(Fault::NotNodes)),
        Value::Piece(_) => Err(Trouble::Fault(Fault::NotNodes)),
    }
}

/// The text of an argument by its place; of one that is not there, no characters.
pub(crate) fn text_at<'a>(
    alloc: Global,
    tree: &'a Tree,
    values: &'a [Operand<'_>],
    place: usize,
) -> Result<CowStr<'a, Global>, AllocError>
    requires { All (IsIn tree.now) values.now }
    ensures text { IfOk result (λ text. cow_str_bytes text
        ≡ text_value tree.now (argument values.now place)) }
{
    match values.get(place) {
        Some(v) => v.text(alloc, tree),
        None => Ok(CowStr::Borrowed("")),
    }
}

/// The text of the first argument; where it is left out, that of the context node.
pub(crate) fn text_or_node<'a>(
    alloc: Global,
    context: &'a Context<'_>,
    values: &'a [Operand<'_>],
) -> Result<CowStr<'a, Global>, AllocError>
    requires node { context.now.node < length context.now.tree }
    requires inside { All (IsIn context.now.tree) values.now }
    ensures text { IfOk result (λ text. cow_str_bytes text
        ≡ text_value context.now.tree (first_or_node context.now values.now)) }
{
    match values.first() {
        Some(v) => v.text(alloc, context.tree),
        None => node_text(alloc, context.tree, context.node),
    }
}

/// The number of an argument by its place; of one that is not there, NaN.
pub(crate) fn number_at(
    alloc: Global,
    tree: &Tree,
    values: &[Operand<'_>],
    place: usize,
) -> Result<Num, Trouble>
    requires { All (IsIn tree.now) values.now }
    ensures number { Answers (numeric (number_value tree.now (argument values.now place))) result }
{
    match values.get(place) {
        Some(v) => v.number(alloc, tree),
        None => Ok(Num::NAN),
    }
}

/// The number of the first argument; where it is left out, that of the context node.
pub(crate) fn number_or_node(
    alloc: Global,
    context: &Context<'_>,
    values: &[Operand<'_>],
) -> Result<Num, Trouble>
    requires node { context.now.node < length context.now.tree }
    requires inside { All (IsIn context.now.tree) values.now }
    ensures number { Answers
        (numeric (number_value context.now.tree (first_or_node context.now values.now))) result }
{
    match values.first() {
        Some(v) => v.number(alloc, context.tree),
        None => {
            let text = node_text(alloc, context.tree, context.node)?;
            let number = read_num(text.as_str());
            drop(text);
            or_trouble(number)
        }
    }
}

/// Whether an argument is true; one that is not there is not.
pub(crate) fn truth_at(values: &[Operand<'_>], place: usize) -> bool
    ensures { result ≡ bool_value (argument values.now place) }
{
    match values.get(place) {
        Some(v) => v.truth(),
        None => false,
    }
}

/// The nodes of an argument by its place, which has to be a node-set.
pub(crate) fn nodes_at<'b>(values: &'b [Operand<'_>], place: usize) -> Result<&'b [Node], Trouble>
    ensures nodes { AnswersBy (λ ns. ns.now) (nodes_in (argument values.now place)) result }
{
    match values.get(place) {
        Some(v) => v.nodes(),
        None => Err(Trouble::Fault(Fault::NotNodes)),
    }
}

/// The first node of the first argument, in document order; where it is left out, the context node.
pub(crate) fn node_or_first(
    context: &Context<'_>,
    values: &[Operand<'_>],
) -> Result<Option<Node>, Trouble>
    requires node { context.now.node < length context.now.tree }
    requires inside { All (IsIn context.now.tree) values.now }
    ensures node { AnswersBy (λ n. n) (first_node (first_or_node context.now values.now)) result }
    ensures inside { IfOk result (λ n. IfSome n (λ k. k < length context.now.tree)) }
{
    match values.first() {
        Some(v) => Ok(v.nodes()?.first().copied()),
        None => Ok(Some(context.node)),
    }
}

/// The value of a text.
pub(crate) fn chars(alloc: Global, text: &str) -> Result<Value, Trouble>
    ensures value { Answers (Ok (Chars text.now)) result }
{
    Ok(Value::Chars(TextBuf::of(alloc, text)?))
}

/// The value of a text, by its bytes.
pub(crate) fn chars_of(bytes: Vec<u8>) -> Result<Value, Trouble>
    requires { IsUtf8 bytes.items }
    ensures value { Answers (Ok (Chars bytes.items)) result }
{
    match String::from_utf8(bytes) {
        Ok(text) => Ok(Value::Chars(TextBuf::from_string(text)?)),
        Err(_) => unreachable!(),
    }
}

/// The node-set of one node.
#[inline(always)]
pub(crate) fn single(alloc: Global, node: Node) -> Result<Value, AllocError>
    ensures value { IfOk result (λ v. v ≡ Nodes (node ∷ [])) }
{
    Ok(Value::Nodes(NodeSet::single(alloc, node)?))
}

/// A whole number of any size, where it is in range.
pub(crate) fn natural(count: u64) -> Result<Num, Trouble>
    ensures number { Answers (natural count) result }
{
    or_trouble(bounded(count))
}

// A whole number of any size, where it is in range.
fn bounded(count: u64) -> Result<Num, NumFault>
    ensures { result ≡ bounded (pos count) }
{
    match i64::try_from(count) {
        Ok(count) => Num::bounded(count),
        Err(_) => Err(NumFault::Range),
    }
}

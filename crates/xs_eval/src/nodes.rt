//! The functions on nodes (XPath 1.0, 4.1; XSLT 1.0, 12.4), and `sum` (XPath 1.0, 4.4), on
//! evaluated arguments.

ghost use Rattle.std.specs.Prelude.{◌<◌, Ok, length, pos, drop};
ghost use Rattle.std.specs.List.{All};
ghost use Rattle.xs_num.specs.declared.number.Number.TheVariants.{Whole};
ghost use Rattle.xs_tree.specs.Record.{at, name_local, name_uri};
ghost use Rattle.xs_value.specs.Conversion.{IsIn};
ghost use Rattle.xs_value.specs.declared.value.Value.TheVariants.{Chars};
ghost use Rattle.xs_eval_spec.specs.Functions.{and_number, count, first, first_or_node};
ghost use Rattle.xs_eval_spec.specs.Functions.{generated_id, id_of, name_part, sum};
ghost use Rattle.xs_eval_spec.specs.Functions.{sum_from};
ghost use Rattle.xs_eval_spec.specs.Functions.{written_name};
ghost use Rattle.xs_eval_spec.specs.Results.{Answers};

use crate::arguments::{chars, chars_of, natural, node_or_first, nodes_at};
use crate::operand::Operand;
use std::alloc::Global;
use xs_eval_spec::context::Context;
use xs_eval_spec::trouble::{Trouble, or_trouble};
use xs_num::arithmetic::add;
use xs_num::number::Num;
use xs_num::reading::read_num;
use xs_num::writing::write_num;
use xs_text::TextBuf;
use xs_tree::{Node, Tree};
use xs_value::conversion::node_text;
use xs_value::value::Value;

/// `count`.
pub(crate) fn count(values: &[Operand<'_>]) -> Result<Value, Trouble>
    ensures value { Answers (count (first values.now)) result }
{
    let nodes = nodes_at(values, 0)?;
    let number = natural(nodes.len() as u64)?;
    Ok(Value::Number(number))
}

/// `local-name`.
pub(crate) fn local_name(
    alloc: Global,
    context: &Context<'_>,
    values: &[Operand<'_>],
) -> Result<Value, Trouble>
    requires node { context.now.node < length context.now.tree }
    requires inside { All (IsIn context.now.tree) values.now }
    ensures value { Answers
        (name_part name_local context.now.tree (first_or_node context.now values.now)) result }
{
    match node_or_first(context, values)? {
        Some(node) => chars(alloc, context.tree.local(node)),
        None => chars(alloc, ""),
    }
}

/// `namespace-uri`.
pub(crate) fn namespace_uri(
    alloc: Global,
    context: &Context<'_>,
    values: &[Operand<'_>],
) -> Result<Value, Trouble>
    requires node { context.now.node < length context.now.tree }
    requires inside { All (IsIn context.now.tree) values.now }
    ensures value { Answers
        (name_part name_uri context.now.tree (first_or_node context.now values.now)) result }
{
    match node_or_first(context, values)? {
        Some(node) => chars(alloc, context.tree.uri(node)),
        None => chars(alloc, ""),
    }
}

/// `name`.
pub(crate) fn name(
    alloc: Global,
    context: &Context<'_>,
    values: &[Operand<'_>],
) -> Result<Value, Trouble>
    requires node { context.now.node < length context.now.tree }
    requires inside { All (IsIn context.now.tree) values.now }
    ensures value { Answers
        (name_part written_name context.now.tree (first_or_node context.now values.now)) result }
{
    match node_or_first(context, values)? {
        Some(node) => written_name(alloc, context.tree, node),
        None => chars(alloc, ""),
    }
}

// The QName of a node, with the prefix that it was written with.
fn written_name(alloc: Global, tree: &Tree, node: Node) -> Result<Value, Trouble>
    requires { node < length tree.now }
    ensures value { Answers (Ok (Chars (written_name (at tree.now node)))) result }
{
    let prefix = tree.prefix(node);
    if prefix.is_empty() {
        return chars(alloc, tree.local(node));
    }
    let mut text = String::from_str(alloc, prefix)?;
    text.push(':')?;
    text.push_str(tree.local(node))?;
    Ok(Value::Chars(TextBuf::from_string(text)?))
}

/// `generate-id`.
pub(crate) fn generate_id(
    alloc: Global,
    context: &Context<'_>,
    values: &[Operand<'_>],
) -> Result<Value, Trouble>
    requires node { context.now.node < length context.now.tree }
    requires inside { All (IsIn context.now.tree) values.now }
    ensures value { Answers (generated_id (first_or_node context.now values.now)) result }
{
    match node_or_first(context, values)? {
        Some(node) => id_of(alloc, node),
        None => chars(alloc, ""),
    }
}

// A name that no other node has.
fn id_of(alloc: Global, node: Node) -> Result<Value, Trouble>
    ensures value { Answers (Ok (Chars (id_of node))) result }
{
    let mut bytes = Vec::from_slice(alloc, b"n")?;
    write_num(&mut bytes, Num::from(node.place()))?;
    chars_of(bytes)
}

/// `sum`: node by node, each number added as soon as it is read.
pub(crate) fn sum(alloc: Global, tree: &Tree, values: &[Operand<'_>]) -> Result<Value, Trouble>
    requires { All (IsIn tree.now) values.now }
    ensures value { Answers (sum tree.now (first values.now)) result }
{
    let nodes = nodes_at(values, 0)?;
    Ok(Value::Number(sum_of_nodes(alloc, tree, nodes)?))
}

// The sum of the numbers of some nodes.
fn sum_of_nodes(alloc: Global, tree: &Tree, nodes: &[Node]) -> Result<Num, Trouble>
    requires { All (λ k. k < length tree.now) nodes.now }
    ensures value { Answers (sum_from tree.now (Whole (pos 0)) nodes.now) result }
{
    let mut total = Num::whole(0);
    for node in nodes {
        total = and_number(alloc, tree, total, *node)?;
    }
    Ok(total)
}

// A total and the number of a node more.
fn and_number(alloc: Global, tree: &Tree, total: Num, node: Node) -> Result<Num, Trouble>
    requires { node < length tree.now }
    ensures value { Answers (and_number tree.now total node) result }
{
    let text = node_text(alloc, tree, node)?;
    let number = read_num(text.as_str());
    drop(text);
    or_trouble(add(total, or_trouble(number)?))
}

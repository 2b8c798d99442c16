//! What a predicate decides (XPath 1.0, 2.4).

ghost use Rattle.std.specs.Prelude.{◌≡◌, ◌≤◌, IfOk, IfSome, length};
ghost use Rattle.std.specs.Option.{option_to_list};
ghost use Rattle.xs_xpath.specs.declared.expr.Expr.TheVariants.{Number as Numeral};
ghost use Rattle.xs_eval_spec.specs.Paths.{is_position, kept_if, selects};
ghost use Rattle.xs_eval.specs.steps.Positions.{node_at, picked, place_of};

use std::alloc::{AllocError, Global};
use xs_num::number::{Num, Number};
use xs_tree::{Node, Tree};
use xs_value::conversion::to_bool;
use xs_value::node_list::NodeList;
use xs_value::value::Value;
use xs_xpath::expr::Expr;

/// Whether a value selects a node at a position: a number selects the one position that is equal to
/// it.
pub fn selects(v: &Value, position: u32) -> bool
    ensures { result ≡ selects v.now position }
{
    match v {
        Value::Number(number) => is_position(*number, position),
        Value::Bool(boolean) => *boolean,
        Value::Chars(_) => to_bool(v),
        Value::Nodes(_) => to_bool(v),
        Value::Piece(_) => to_bool(v),
    }
}

// Whether a number is a position.
fn is_position(number: Num, position: u32) -> bool
    ensures { result ≡ is_position number position }
{
    match number.get() {
        Number::Whole(value) => value == i64::from(position),
        Number::NaN => false,
    }
}

/// The number that a predicate is, if it is one.
pub(crate) fn number_of(predicate: &Expr) -> Option<Num>
    ensures { IfSome result (λ number. predicate.now ≡ Numeral number) }
{
    match predicate {
        Expr::Number(number) => Some(*number),
        _ => None,
    }
}

/// The nodes that a number keeps as a predicate: the one at its position, if any.
pub(crate) fn picked(alloc: Global, nodes: &[Node], number: Num) -> Result<NodeList, AllocError>
    ensures nodes { IfOk result (λ ns. ns ≡ picked number 1 nodes.now) }
{
    match node_at(nodes, number) {
        Some(node) => NodeList::from_slice(alloc, &[node]),
        None => Ok(NodeList::new(alloc)),
    }
}

// The node at a position, if any.
fn node_at(nodes: &[Node], number: Num) -> Option<Node>
    ensures { option_to_list result ≡ picked number 1 nodes.now }
{
    match number.get() {
        Number::Whole(position) => node_at_whole(nodes, position),
        Number::NaN => None,
    }
}

// The same for a whole number.
fn node_at_whole(nodes: &[Node], position: i64) -> Option<Node>
    ensures { result ≡ node_at position nodes.now }
{
    if position < 1 {
        return None;
    }
    nodes.get(place_of(position)).copied()
}

// The place, from 0, of a position.
fn place_of(position: i64) -> usize
    ensures { result ≡ place_of position }
{
    if position < 1 {
        0
    } else {
        (position - 1) as usize
    }
}

/// The nodes, with one more where it is kept.
pub(crate) fn kept_if(is_kept: bool, nodes: NodeList, node: Node) -> Result<NodeList, AllocError>
    ensures nodes { IfOk result (λ ns. ns ≡ kept_if is_kept nodes node) }
{
    let mut nodes = nodes;
    if is_kept {
        nodes.push(node)?;
    }
    Ok(nodes)
}

/// How many nodes of a tree these are.
pub fn count_of(tree: &Tree, nodes: &[Node]) -> u32
    requires few { length nodes.now ≤ length tree.now }
    ensures { result ≡ length nodes.now }
{
    let most = tree.len();
    prove!(nodes.len() <= most);
    nodes.len() as u32
}

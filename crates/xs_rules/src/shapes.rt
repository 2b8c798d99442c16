//! Which rules are worth a table, by the form of their patterns and of the tree. It is a matter of
//! time alone, and no clause speaks of it.

ghost use Rattle.std.specs.Prelude.{◌<◌, length};

use crate::entries::Entry;
use std::alloc::{AllocError, Global};
use xs_pattern::paths::steps_of;
use xs_sheet::declarations::Template;
use xs_tree::{Node, Tree};
use xs_xpath::expr::Expr;
use xs_xpath::name::Function;
use xs_xpath::token::Operator;
use xs_xpath::uses::uses_place;

/// Up to so many levels a tree has no tables for climbs: to climb them takes a match less time than
/// there is to win, and documents that are not made to be deep have fewer.
const SHALLOW: u8 = 64;

/// Up to so many children a node's are listed again for each match.
const NARROW: u32 = 64;

/// For what there are tables.
#[derive(Clone, Copy)]
pub(crate) struct Worth {
    /// For a `//` between steps.
    pub(crate) climbs: bool,
    /// For predicates that count positions.
    pub(crate) positions: bool,
}

impl Worth {
    /// Whether there are none.
    pub(crate) fn is_none(self) -> bool {
        !self.climbs && !self.positions
    }
}

/// For what there are tables, where rules are tried on the nodes of a tree.
pub(crate) fn worth_of(
    alloc: Global,
    templates: &[Template],
    entries: &[Entry],
    tree: &Tree,
) -> Result<Worth, AllocError> {
    let mut worth = Worth {
        climbs: false,
        positions: false,
    };
    if some_rule(templates, entries, Form::Climbing) {
        worth.climbs = is_deep(alloc, tree)?;
    }
    if some_rule(templates, entries, Form::Counting) {
        worth.positions = is_wide(tree);
    }
    Ok(worth)
}

/// A form of a pattern's alternative.
#[derive(Clone, Copy)]
enum Form {
    /// With a `//` between steps.
    Climbing,
    /// With a predicate that may count positions.
    Counting,
}

// Whether a rule is of a form.
fn some_rule(templates: &[Template], entries: &[Entry], form: Form) -> bool {
    for entry in entries {
        if let Some(alternative) = alternative_of(templates, entry) {
            if is_of_form(alternative, form) {
                return true;
            }
        }
    }
    false
}

// Whether an alternative is of a form.
fn is_of_form(alternative: &Expr, form: Form) -> bool {
    match form {
        Form::Climbing => has_slashes(steps_of(alternative)),
        Form::Counting => has_positions(alternative),
    }
}

// The alternative that is a rule.
fn alternative_of<'a>(templates: &'a [Template], entry: &Entry) -> Option<&'a Expr> {
    match templates.get(entry.template as usize) {
        None => None,
        Some(template) => match &template.pattern {
            None => None,
            Some(pattern) => pattern.pattern.alternatives().get(entry.alternative),
        },
    }
}

// Whether a `//` stands after the first of some steps.
fn has_slashes(steps: &[Expr]) -> bool {
    match steps.split_first() {
        None => false,
        Some((_, behind)) => behind.iter().any(|step| matches!(step, Expr::Descend)),
    }
}

/// Whether a step of an alternative has a predicate that may count positions.
pub(crate) fn has_positions(alternative: &Expr) -> bool {
    for step in steps_of(alternative) {
        if step_counts(step) {
            return true;
        }
    }
    false
}

// Whether a step has a predicate that may count positions.
fn step_counts(step: &Expr) -> bool {
    if let Expr::Step(_, _, predicates) = step {
        for predicate in predicates {
            if uses_place(predicate) || may_be_number(predicate) {
                return true;
            }
        }
    }
    false
}

// Whether the value of a predicate may be a number, which is the position that it selects (XPath
// 1.0, 2.4).
fn may_be_number(predicate: &Expr) -> bool {
    match predicate {
        Expr::Number(_) => true,
        Expr::Negative(_, _) => true,
        Expr::Group(_) => true,
        Expr::Call(function, _) => gives_number(*function),
        Expr::Chain(operators, _) => is_arithmetic(operators),
        _ => false,
    }
}

// Whether a function gives a number.
fn gives_number(function: Function) -> bool {
    matches!(
        function,
        Function::Count
            | Function::StringLength
            | Function::Number
            | Function::Sum
            | Function::Floor
            | Function::Ceiling
            | Function::Round
    )
}

// Whether operators of one level give a number.
fn is_arithmetic(operators: &[Operator]) -> bool {
    match operators.first() {
        None => false,
        Some(operator) => matches!(
            operator,
            Operator::Plus
                | Operator::Minus
                | Operator::Times
                | Operator::Div
                | Operator::FloorDiv
                | Operator::CeilingDiv
                | Operator::NearestDiv
                | Operator::Mod
        ),
    }
}

// Whether some node of a tree has many children or attributes.
fn is_wide(tree: &Tree) -> bool {
    for place in 0..tree.len() as u32 {
        if is_node_wide(tree, Node::at(place)) {
            return true;
        }
    }
    false
}

// Whether a node has many children or attributes.
fn is_node_wide(tree: &Tree, node: Node) -> bool
    requires { node < length tree.now }
{
    let mut children = 0;
    for _child in tree.children(node) {
        if children >= NARROW {
            return true;
        }
        children += 1;
    }
    let mut attributes = 0;
    for _attribute in tree.attributes(node) {
        if attributes >= NARROW {
            return true;
        }
        attributes += 1;
    }
    false
}

// Whether a tree has more levels than a shallow one.
fn is_deep(alloc: Global, tree: &Tree) -> Result<bool, AllocError> {
    let mut levels = Vec::new(alloc);
    for place in 0..tree.len() as u32 {
        let level = level_of(tree, Node::at(place), &levels);
        if level > SHALLOW {
            return Ok(true);
        }
        levels.push(level)?;
    }
    Ok(false)
}

// How many ancestors a node has, where it is known of the nodes before it.
fn level_of(tree: &Tree, node: Node, levels: &[u8]) -> u8
    requires { node < length tree.now }
{
    match tree.parent(node) {
        None => 0,
        Some(parent) => match levels.get(parent.place() as usize) {
            None => 0,
            Some(level) => level.saturating_add(1),
        },
    }
}

//! Which nodes the `match` of a key's declaration matches (XSLT 1.0, 12.2): by a table of all
//! nodes, where a match may climb from the node or list its siblings, and otherwise node by node.
//! For which declarations there is a table is a matter of time alone, and no clause speaks of it.

ghost use Rattle.std.specs.Prelude.{◌≡◌, ◌<◌, [], IfOk, IfSome, length};
ghost use Rattle.xs_keys.specs.steps.Pairs.{AreMatchTables, decls_in};
ghost use Rattle.xs_pattern.specs.MatchTables.{IsMatchTable};
ghost use Rattle.xs_pattern_spec.specs.Matching.{is_match};

use std::alloc::{AllocError, Global};
use xs_pattern::match_tables::match_table;
use xs_pattern::matcher::Matcher;
use xs_pattern::paths::steps_of;
use xs_sheet::declarations::KeyDecl;
use xs_sheet::scoped::ScopedPattern;
use xs_tree::{Node, Tree, is_flagged};
use xs_value::keys::NoKeys;
use xs_xpath::expr::Expr;
use xs_xpath::token::Operator;
use xs_xpath::uses::uses_place;

/// The bytes that the tables of a key take at most, unless these are few.
const MOST_BYTES: usize = 67_108_864;

/// So many tables may be made however many nodes there are.
const FEWEST: usize = 64;

/// Tables of the nodes that match each declaration, where it is worth one.
pub(crate) fn tables_of(
    alloc: Global,
    members: &[&KeyDecl],
    tree: &Tree,
) -> Result<Vec<Option<Vec<bool>>>, AllocError>
    ensures { IfOk result (λ tables.
        AreMatchTables tree.now (decls_in members.now) tables.items) }
{
    let mut tables = Vec::new(alloc);
    let mut left = most_tables(tree.len());
    for member in members {
        let table = table_of(alloc, &member.pattern, left, tree)?;
        left = left_behind(left, &table);
        tables.push(table)?;
    }
    Ok(tables)
}

// How many tables there may be over so many nodes.
fn most_tables(count: usize) -> usize {
    (MOST_BYTES / count.max(1)).max(FEWEST)
}

// How many more tables there may be after one that may be there.
fn left_behind(left: usize, table: &Option<Vec<bool>>) -> usize {
    match table {
        Some(_) => left.saturating_sub(1),
        None => left,
    }
}

// The table of a pattern, if it is worth one and so many more may be made.
fn table_of(
    alloc: Global,
    pattern: &ScopedPattern,
    left: usize,
    tree: &Tree,
) -> Result<Option<Vec<bool>>, AllocError>
    ensures table { IfOk result (λ table. IfSome table
        (λ t. IsMatchTable [] tree.now pattern.now t.items)) }
{
    if left == 0 || !is_dear(pattern) {
        return Ok(None);
    }
    Ok(Some(match_table(alloc, pattern, tree, &NoKeys)?))
}

/// Whether a node matches a pattern, by its table, if it has one.
pub(crate) fn is_matched(
    alloc: Global,
    pattern: &ScopedPattern,
    table: &Option<Vec<bool>>,
    tree: &Tree,
    node: Node,
) -> Result<bool, AllocError>
    requires node { node < length tree.now }
    requires table { IfSome table.now (λ t. IsMatchTable [] tree.now pattern.now t.items) }
    ensures matched { IfOk result (λ b. b ≡ is_match [] tree.now pattern.now node) }
{
    match table {
        Some(flags) => Ok(is_flagged(flags, node)),
        None => some_matches(alloc, pattern, tree, node),
    }
}

// Whether a node matches some alternative of a pattern.
fn some_matches(
    alloc: Global,
    pattern: &ScopedPattern,
    tree: &Tree,
    node: Node,
) -> Result<bool, AllocError>
    requires node { node < length tree.now }
    ensures matched { IfOk result (λ b. b ≡ is_match [] tree.now pattern.now node) }
{
    let keys = NoKeys;
    let matcher = Matcher {
        alloc,
        tree,
        keys: &keys,
    };
    let scope = pattern.scope.scope();
    for alternative in pattern.pattern.alternatives() {
        if matcher.matches_path(alternative, scope, node)? {
            return Ok(true);
        }
    }
    Ok(false)
}

// Whether a match of a pattern may climb from the node or list its siblings.
fn is_dear(pattern: &ScopedPattern) -> bool {
    for alternative in pattern.pattern.alternatives() {
        if is_path_dear(steps_of(alternative)) {
            return true;
        }
    }
    false
}

// Whether a `//` stands after the first of some steps, or one may count positions.
fn is_path_dear(steps: &[Expr]) -> bool {
    match steps.split_first() {
        None => false,
        Some((first, behind)) => {
            if may_count(first) {
                return true;
            }
            behind
                .iter()
                .any(|step| matches!(step, Expr::Descend) || may_count(step))
        }
    }
}

// Whether a step has a predicate that may count positions.
fn may_count(step: &Expr) -> bool {
    if let Expr::Step(_, _, predicates) = step {
        for predicate in predicates {
            if uses_place(predicate) || !is_truth(predicate) {
                return true;
            }
        }
    }
    false
}

// Whether the value of a predicate is no number, which would be the position that it selects (XPath
// 1.0, 2.4).
fn is_truth(predicate: &Expr) -> bool {
    match predicate {
        Expr::Path(_, _) => true,
        Expr::Chain(operators, _) => are_of_truth(operators),
        _ => false,
    }
}

// Whether operators of one level give no number.
fn are_of_truth(operators: &[Operator]) -> bool {
    match operators.first() {
        None => false,
        Some(operator) => matches!(
            operator,
            Operator::Or
                | Operator::And
                | Operator::Equal
                | Operator::Unequal
                | Operator::Less
                | Operator::LessEqual
                | Operator::Greater
                | Operator::GreaterEqual
                | Operator::Union
        ),
    }
}

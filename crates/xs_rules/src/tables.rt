//! Tables for the rules whose patterns have `//` between steps, or a predicate that counts
//! positions (XSLT 1.0, 5.2). Without one, each match of such a rule climbs from the node, or lists
//! the node's siblings, which in a deep or a wide tree takes long. For which rules there are tables
//! is a matter of time alone, and no clause speaks of it.

ghost use Rattle.std.specs.Prelude.{◌≡◌, ◌<◌, ℕ, IfOk, IfSome, length, List, option_copied};
ghost use Rattle.std.specs.Option.{option_and_then};
ghost use Rattle.xs_pattern_spec.specs.Matching.{matches_path, pattern_context};
ghost use Rattle.xs_value.specs.Tables.{TablesIn};
ghost use Rattle.xs_xpath.specs.Exprs.{tree_from};
ghost use Rattle.xs_rules.specs.steps.Index.{AreTables, IsTable, IsTableOf, at_entry, nth_of};
ghost use Rattle.xs_rules.specs.steps.Index.{table_at};

use crate::candidates::nth_alternative;
use crate::entries::Entry;
use crate::shapes::{Worth, has_positions, worth_of};
use std::alloc::{AllocError, Global};
use xs_pattern::above::above_of;
use xs_pattern::matcher::Matcher;
use xs_pattern::path_tables::path_table;
use xs_sheet::declarations::Template;
use xs_tree::{Node, Tree, is_flagged};
use xs_value::keys::KeyFinder;
use xs_xpath::expr::Expr;
use xs_xpath::scope::Scope;

/// The bytes that tables take at most, unless they are few: each takes a byte a node, and the rules
/// after the last one go without.
const MOST_BYTES: usize = 67_108_864;

/// So many tables may be made however many nodes there are.
const FEWEST: usize = 64;

/// A table beside a rule.
#[derive(Drop)]
pub(crate) enum RuleTable {
    /// Below which nodes what stands before the last `//` of its pattern ends.
    Above(Vec<bool>),
    /// Which nodes match.
    Matches(Vec<bool>),
}

/// The tables of the rules of a stylesheet over the nodes of a tree.
pub(crate) fn tables_for(
    alloc: Global,
    templates: &[Template],
    entries: &[Entry],
    tree: &Tree,
) -> Result<Vec<Option<RuleTable>>, AllocError>
    ensures tables { IfOk result (λ tables. AreTables templates.now entries.now tree.now
        tables.items) }
{
    let worth = worth_of(alloc, templates, entries, tree)?;
    if worth.is_none() {
        return Ok(Vec::new(alloc));
    }
    first_tables(alloc, templates, entries, worth, tree)
}

/// The table beside a rule, if it has one.
pub(crate) fn table_at(tables: &[Option<RuleTable>], place: usize) -> Option<&RuleTable>
    ensures { option_copied result ≡ table_at tables.now place }
{
    match tables.get(place) {
        Some(Some(table)) => Some(table),
        Some(None) => None,
        None => None,
    }
}

/// Whether a node matches an alternative, by the table beside it, if there is one.
pub(crate) fn matches_by<K: KeyFinder>(
    matcher: &Matcher<'_, K>,
    alternative: &Expr,
    scope: &Scope,
    node: Node,
    table: Option<&RuleTable>,
) -> Result<bool, AllocError>
    requires node { node < length matcher.now.tree.now }
    requires tables { TablesIn matcher.now.tree.now (K.tables matcher.now.keys.now) }
    requires table { IfSome table (λ t. IsTable matcher.now.tree.now scope.now.pairs.items
        (tree_from alternative.now) t.now) }
    ensures matches { IfOk result (λ b. b ≡ matches_path (K.tables matcher.now.keys.now)
        (pattern_context matcher.now.tree.now scope.now.pairs.items node)
        (tree_from alternative.now)) }
{
    match table {
        Some(RuleTable::Matches(nodes)) => Ok(is_flagged(nodes, node)),
        Some(RuleTable::Above(above)) => {
            let above = Some(above.as_slice());
            matcher.matches_path_by(alternative, scope, node, above)
        }
        None => matcher.matches_path_by(alternative, scope, node, None),
    }
}

// The tables of the rules up to the last one that gets one.
fn first_tables(
    alloc: Global,
    templates: &[Template],
    entries: &[Entry],
    worth: Worth,
    tree: &Tree,
) -> Result<Vec<Option<RuleTable>>, AllocError>
    ensures tables { IfOk result (λ tables. AreTables templates.now entries.now tree.now
        tables.items) }
{
    let mut tables = Vec::new(alloc);
    let mut left = most_tables(tree.len());
    for entry in entries {
        if left == 0 {
            return Ok(tables);
        }
        let table = table_of(alloc, templates, entry, worth, tree)?;
        left = left_behind(left, &table);
        tables.push(table)?;
    }
    Ok(tables)
}

// How many tables there may be over so many nodes.
fn most_tables(count: usize) -> usize {
    (MOST_BYTES / count.max(1)).max(FEWEST)
}

// How many more tables there may be after one that may be there.
fn left_behind(left: usize, table: &Option<RuleTable>) -> usize {
    match table {
        Some(_) => left.saturating_sub(1),
        None => left,
    }
}

// The table of a rule, if it is worth one.
fn table_of(
    alloc: Global,
    templates: &[Template],
    entry: &Entry,
    worth: Worth,
    tree: &Tree,
) -> Result<Option<RuleTable>, AllocError>
    ensures table { IfOk result (IsTableOf tree.now (at_entry templates.now entry.now)) }
{
    match templates.get(entry.template as usize) {
        None => Ok(None),
        Some(template) => table_of_nth(alloc, template, entry.alternative, worth, tree),
    }
}

// That of one of the alternatives of a template's pattern, by its number.
fn table_of_nth(
    alloc: Global,
    template: &Template,
    place: usize,
    worth: Worth,
    tree: &Tree,
) -> Result<Option<RuleTable>, AllocError>
    ensures table { (number : ℕ) → IfOk result (IsTableOf tree.now
        (option_and_then (nth_of number template.now place) template.now.pattern)) }
{
    match &template.pattern {
        None => Ok(None),
        Some(pattern) => match nth_alternative(pattern, place) {
            None => Ok(None),
            Some(alternative) => {
                table_in(alloc, alternative, pattern.scope.scope(), worth, tree)
            }
        },
    }
}

// That of an alternative: of the nodes that match, or of what stands before its last `//`.
fn table_in(
    alloc: Global,
    alternative: &Expr,
    scope: &Scope,
    worth: Worth,
    tree: &Tree,
) -> Result<Option<RuleTable>, AllocError>
    ensures table { IfOk result (λ table. IfSome table
        (IsTable tree.now scope.now.pairs.items (tree_from alternative.now))) }
{
    if worth.positions && has_positions(alternative) {
        return matching_nodes(alloc, alternative, scope, tree);
    }
    if worth.climbs {
        return nodes_below(alloc, alternative, tree);
    }
    Ok(None)
}

// The table of the nodes that match an alternative, if there is one.
fn matching_nodes(
    alloc: Global,
    alternative: &Expr,
    scope: &Scope,
    tree: &Tree,
) -> Result<Option<RuleTable>, AllocError>
    ensures table { IfOk result (λ table. IfSome table
        (IsTable tree.now scope.now.pairs.items (tree_from alternative.now))) }
{
    match path_table(alloc, alternative, scope, tree)? {
        None => Ok(None),
        Some(nodes) => Ok(Some(RuleTable::Matches(nodes))),
    }
}

// The table of what stands before the last `//` of an alternative, if there is one.
fn nodes_below(
    alloc: Global,
    alternative: &Expr,
    tree: &Tree,
) -> Result<Option<RuleTable>, AllocError>
    ensures table { (scope : List (List ℕ × List ℕ)) → IfOk result (λ table. IfSome table
        (IsTable tree.now scope (tree_from alternative.now))) }
{
    match above_of(alloc, alternative, tree)? {
        None => Ok(None),
        Some(above) => Ok(Some(RuleTable::Above(above))),
    }
}

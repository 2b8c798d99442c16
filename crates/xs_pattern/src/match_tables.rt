//! Tables of the nodes that match a pattern of a stylesheet (XSLT 1.0, 5.2), for keys and numbers.

ghost use Rattle.std.specs.Prelude.{◌≡◌, ◌<◌, ◌||◌, IfOk, IfSome, false, get_or, length, map};
ghost use Rattle.xs_pattern.specs.MatchTables.{IsMatchTable};
ghost use Rattle.xs_pattern_spec.specs.Matching.{matches_path, pattern_context};
ghost use Rattle.xs_pattern.specs.steps.PathTables.{IsPathTable};
ghost use Rattle.xs_tree.specs.Record.{places};
ghost use Rattle.xs_value.specs.Tables.{TablesIn};
ghost use Rattle.xs_xpath.specs.Exprs.{tree_from};

use crate::matcher::Matcher;
use crate::path_tables::path_table;
use std::alloc::{AllocError, Global};
use xs_sheet::scoped::ScopedPattern;
use xs_tree::{Node, Tree, is_flagged};
use xs_value::keys::KeyFinder;
use xs_xpath::expr::Expr;
use xs_xpath::scope::Scope;

/// For each node of a tree, whether it matches a pattern.
///
/// An alternative that begins with neither `id` nor `key`, and calls neither `key` nor `current`,
/// takes time linear in the nodes and in its steps, predicates apart.
pub fn match_table<K: KeyFinder>(
    alloc: Global,
    pattern: &ScopedPattern,
    tree: &Tree,
    keys: &K,
) -> Result<Vec<bool>, AllocError>
    requires tables { TablesIn tree.now (K.tables keys.now) }
    ensures table { IfOk result (λ table.
        IsMatchTable (K.tables keys.now) tree.now pattern.now table.items) }
{
    let matcher = Matcher { alloc, tree, keys };
    let mut found = Vec::new(alloc);
    for alternative in pattern.pattern.alternatives() {
        let scope = pattern.scope.scope();
        found = matcher.with_alternative(&found, alternative, scope)?;
    }
    Ok(found)
}

impl<'a, K: KeyFinder> Matcher<'a, K> {
    // For each node, whether it was found or matches an alternative.
    fn with_alternative(
        &self,
        found: &[bool],
        alternative: &Expr,
        scope: &Scope,
    ) -> Result<Vec<bool>, AllocError>
        requires tables { TablesIn self.now.tree.now (K.tables self.now.keys.now) }
        ensures table { IfOk result (λ joined. joined.items ≡ map (λ n. get_or found.now n false
            || matches_path (K.tables self.now.keys.now)
            (pattern_context self.now.tree.now scope.now.pairs.items n) (tree_from alternative.now))
            (places self.now.tree.now)) }
    {
        let table = path_table(self.alloc, alternative, scope, self.tree)?;
        self.with_table(&table, found, alternative, scope)
    }

    // The same by the alternative's table, if it has one.
    fn with_table(
        &self,
        table: &Option<Vec<bool>>,
        found: &[bool],
        alternative: &Expr,
        scope: &Scope,
    ) -> Result<Vec<bool>, AllocError>
        requires table { IfSome table.now (λ t.
            IsPathTable self.now.tree.now scope.now.pairs.items
            (tree_from alternative.now) t.items) }
        requires tables { TablesIn self.now.tree.now (K.tables self.now.keys.now) }
        ensures table { IfOk result (λ joined. joined.items ≡ map (λ n. get_or found.now n false
            || matches_path (K.tables self.now.keys.now)
            (pattern_context self.now.tree.now scope.now.pairs.items n) (tree_from alternative.now))
            (places self.now.tree.now)) }
    {
        let mut joined = Vec::new(self.alloc);
        for place in 0..self.tree.len() as u32 {
            let node = Node::at(place);
            let is_matched = self.matches_by_table(table, alternative, scope, node)?;
            joined.push(is_either(found, node, is_matched))?;
        }
        Ok(joined)
    }

    // Whether a node matches an alternative, by its table, if it has one.
    fn matches_by_table(
        &self,
        table: &Option<Vec<bool>>,
        alternative: &Expr,
        scope: &Scope,
        node: Node,
    ) -> Result<bool, AllocError>
        requires table { IfSome table.now (λ t.
            IsPathTable self.now.tree.now scope.now.pairs.items
            (tree_from alternative.now) t.items) }
        requires node { node < length self.now.tree.now }
        requires tables { TablesIn self.now.tree.now (K.tables self.now.keys.now) }
        ensures matches { IfOk result (λ b. b ≡ matches_path (K.tables self.now.keys.now)
            (pattern_context self.now.tree.now scope.now.pairs.items node)
            (tree_from alternative.now)) }
    {
        match table {
            Some(found) => Ok(is_flagged(found, node)),
            None => self.matches_path(alternative, scope, node),
        }
    }
}

// Whether a node was found or matches.
fn is_either(found: &[bool], node: Node, is_matched: bool) -> bool
    ensures { result ≡ (get_or found.now node false || is_matched) }
{
    if is_flagged(found, node) {
        return true;
    }
    is_matched
}

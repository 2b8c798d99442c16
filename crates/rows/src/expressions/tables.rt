//! Tables of what is before the last `//` of a pattern, and of the nodes that match one.

ghost use Rattle.xs_pattern.specs.Above.{IsAbove};
ghost use Rattle.xs_xpath.specs.Exprs.{tree_from};

use crate::answer::Answer;
use crate::expressions::calls::Call;
use crate::expressions::settings::Settings;
use xs_pattern::above::above_of;
use xs_pattern::matcher::Matcher;
use xs_pattern::path_tables::path_table;
use xs_tree::{Node, is_flagged};
use xs_value::keys::NoKeys;
use xs_xpath::expr::Expr;
use xs_xpath::pattern::Pattern;

/// Adds how many nodes match a pattern by its tables, or whether its tables say of each node what
/// is found without them.
pub(crate) fn put_answer(out: &Answer, settings: &Settings, call: Call, pattern: &Pattern) {
    let agreed = match call {
        Call::Count => return put_count(out, settings, pattern),
        Call::Marks => "as matched",
        _ => "as climbed",
    };
    for alternative in &pattern.alternatives {
        let found = match call {
            Call::Marks => by_nodes(out, settings, alternative),
            _ => by_table(out, settings, alternative),
        };
        match found {
            Some(true) => (),
            Some(false) => return out.put_both("not ", agreed),
            None => return out.put("no table"),
        }
    }
    out.put(agreed);
}

// Adds how many nodes match the alternatives of a pattern, by their tables.
fn put_count(out: &Answer, settings: &Settings, pattern: &Pattern) {
    let mut count = 0_u64;
    for alternative in &pattern.alternatives {
        match above_of(settings.alloc, alternative, &settings.tree) {
            Ok(Some(above)) => {
                let more = count_of(out, settings, alternative, &above);
                count = count.saturating_add(more);
            }
            Ok(None) => (),
            Err(_) => out.refuse(),
        }
    }
    out.put_whole(count);
}

// How many nodes match an alternative, by its table.
fn count_of(out: &Answer, settings: &Settings, alternative: &Expr, above: &[bool]) -> u64
    requires { IsAbove settings.now.tree (tree_from alternative.now) above.now }
{
    let (alloc, tree, scope) = (settings.alloc, &settings.tree, &settings.scope);
    let keys = NoKeys;
    let matcher = Matcher {
        alloc,
        tree,
        keys: &keys,
    };
    let mut count = 0_u64;
    for place in 0..tree.len() as u32 {
        let node = Node::at(place);
        let above = Some(above);
        let found = matcher.matches_path_by(alternative, scope, node, above);
        count = count.saturating_add(out.holds(found) as u64);
    }
    count
}

// Whether an alternative has a table of what is before its last `//`, by which the same nodes match
// as without it.
fn by_table(out: &Answer, settings: &Settings, alternative: &Expr) -> Option<bool> {
    match above_of(settings.alloc, alternative, &settings.tree) {
        Ok(Some(above)) => Some(is_as_climbed(out, settings, alternative, &above)),
        Ok(None) => None,
        Err(_) => {
            out.refuse();
            None
        }
    }
}

// Whether the same nodes match an alternative by this table as without it.
fn is_as_climbed(out: &Answer, settings: &Settings, alternative: &Expr, above: &[bool]) -> bool
    requires { IsAbove settings.now.tree (tree_from alternative.now) above.now }
{
    let (alloc, tree, scope) = (settings.alloc, &settings.tree, &settings.scope);
    let keys = NoKeys;
    let matcher = Matcher {
        alloc,
        tree,
        keys: &keys,
    };
    for place in 0..tree.len() as u32 {
        let node = Node::at(place);
        let above = Some(above);
        let found = matcher.matches_path_by(alternative, scope, node, above);
        let climbed = matcher.matches_path(alternative, scope, node);
        if out.holds(found) != out.holds(climbed) {
            return false;
        }
    }
    true
}

// Whether an alternative has a table of the nodes that match, which are those without it.
fn by_nodes(out: &Answer, settings: &Settings, alternative: &Expr) -> Option<bool> {
    match path_table(settings.alloc, alternative, &settings.scope, &settings.tree) {
        Ok(Some(nodes)) => Some(is_as_matched(out, settings, alternative, &nodes)),
        Ok(None) => None,
        Err(_) => {
            out.refuse();
            None
        }
    }
}

// Whether the nodes that match an alternative are those of the table.
fn is_as_matched(out: &Answer, settings: &Settings, alternative: &Expr, nodes: &[bool]) -> bool {
    let (alloc, tree, scope) = (settings.alloc, &settings.tree, &settings.scope);
    let keys = NoKeys;
    let matcher = Matcher {
        alloc,
        tree,
        keys: &keys,
    };
    for place in 0..tree.len() as u32 {
        let node = Node::at(place);
        let climbed = matcher.matches_path(alternative, scope, node);
        if is_flagged(nodes, node) != out.holds(climbed) {
            return false;
        }
    }
    true
}

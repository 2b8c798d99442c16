//! Whether a node matches a pattern (XSLT 1.0, 5.2).

ghost use Rattle.std.specs.Prelude.{◌≡◌, ◌<◌, IfOk, IfSome, length};
ghost use Rattle.xs_tree.specs.Shape.{IsTree};
ghost use Rattle.xs_value.specs.Tables.{TablesIn};
ghost use Rattle.xs_xpath.specs.Exprs.{tree_from, trees_from};
ghost use Rattle.xs_eval_spec.specs.Conditions.{IsContext};
ghost use Rattle.xs_eval_spec.specs.Evaluation.{run_of};
ghost use Rattle.xs_pattern_spec.specs.Matching.{ends_path, matches, matches_path, pattern_context};
ghost use Rattle.xs_pattern_spec.specs.Matching.{placed_at};
ghost use Rattle.xs_pattern_spec.specs.Predicates.{is_among, nodes_given};
ghost use Rattle.xs_pattern.specs.Above.{IsAbove, IsAboveIn};
ghost use Rattle.xs_pattern.specs.steps.Climb.{IsBehind, IsReached, backwards, ends_above};

use crate::keys::key_call;
use crate::matcher::Matcher;
use crate::node_tests::is_root;
use crate::paths::{start_of, steps_of};
use crate::steps::is_descend;
use std::alloc::AllocError;
use xs_eval_spec::context::Context;
use xs_tree::{Node, is_flagged};
use xs_value::keys::KeyFinder;
use xs_xpath::expr::Expr;
use xs_xpath::pattern::Pattern;
use xs_xpath::scope::Scope;

/// What the steps after the last `//` of a path come to, gone over from a node backwards.
#[derive(Drop)]
enum Reached<'a> {
    /// There is no `//`, and the path ends at the node.
    Fits,
    /// The path does not end at the node.
    Differs,
    /// The steps before the `//`, and the place of the node from which those after it lead to the
    /// node.
    Below(&'a [Expr], u32),
}

impl<'a, K: KeyFinder> Matcher<'a, K> {
    /// Whether a node matches a pattern, under the namespace declarations in scope for the pattern.
    ///
    /// A pattern has no variables, and does not call `current` (XSLT 1.0, 5.3 and 12.4). No fault
    /// is reported: a predicate that ends in one is false, and a path that begins with a key that
    /// there is not, or whose table has a fault, has no node.
    pub fn matches(&self, pattern: &Pattern, scope: &Scope, node: Node) -> Result<bool, AllocError>
        requires node { node < length self.now.tree.now }
        requires tables { TablesIn self.now.tree.now (K.tables self.now.keys.now) }
        ensures matches { IfOk result (λ b. b ≡ matches (K.tables self.now.keys.now)
            self.now.tree.now scope.now.pairs.items
            (trees_from pattern.now.alternatives.items) node) }
    {
        for alternative in &pattern.alternatives {
            if self.matches_path(alternative, scope, node)? {
                return Ok(true);
            }
        }
        Ok(false)
    }

    /// Whether a node matches one alternative of a pattern.
    pub fn matches_path(
        &self,
        alternative: &Expr,
        scope: &Scope,
        node: Node,
    ) -> Result<bool, AllocError>
        requires node { node < length self.now.tree.now }
        requires tables { TablesIn self.now.tree.now (K.tables self.now.keys.now) }
        ensures matches { IfOk result (λ b. b ≡ matches_path (K.tables self.now.keys.now)
            (pattern_context self.now.tree.now scope.now.pairs.items node)
            (tree_from alternative.now)) }
    {
        self.matches_path_by(alternative, scope, node, None)
    }

    /// The same, with the table that `above_of` makes of the alternative, if there is one: then the
    /// node's ancestors are not gone over.
    pub fn matches_path_by(
        &self,
        alternative: &Expr,
        scope: &Scope,
        node: Node,
        above: Option<&[bool]>,
    ) -> Result<bool, AllocError>
        requires node { node < length self.now.tree.now }
        requires tables { TablesIn self.now.tree.now (K.tables self.now.keys.now) }
        requires above { IfSome above (λ t.
            IsAbove self.now.tree.now (tree_from alternative.now) t.now) }
        ensures matches { IfOk result (λ b. b ≡ matches_path (K.tables self.now.keys.now)
            (pattern_context self.now.tree.now scope.now.pairs.items node)
            (tree_from alternative.now)) }
    {
        let tree = self.tree;
        let count = tree.len();
        prove!((node.place() as usize) < count);
        let context = Context {
            tree,
            node,
            position: 1,
            size: 1,
            current: node,
            locals: &[],
            globals: &[],
            scope,
        };
        self.ends_path(
            start_of(alternative),
            steps_of(alternative),
            &context,
            above,
        )
    }

    // Whether the context node is at the end of a path.
    fn ends_path(
        &self,
        start: &Expr,
        steps: &[Expr],
        context: &Context<'_>,
        above: Option<&[bool]>,
    ) -> Result<bool, AllocError>
        requires context { IsContext (K.tables self.now.keys.now) context.now }
        requires tree { IsTree context.now.tree }
        requires above { IfSome above (λ t. IsAboveIn (K.tables self.now.keys.now) context.now
            (tree_from start.now) (backwards steps.now) t.now) }
        ensures ends { IfOk result (λ b. b ≡ ends_path (K.tables self.now.keys.now) context.now
            (tree_from start.now) (backwards steps.now) context.now.node) }
    {
        match self.climb(start, steps, context.node, context) {
            Err(refused) => Err(refused),
            Ok(Reached::Fits) => Ok(true),
            Ok(Reached::Differs) => Ok(false),
            Ok(Reached::Below(before, top)) => match above {
                Some(table) => Ok(is_flagged(table, Node::at(top))),
                None => self.ends_above(start, before, Node::at(top), context),
            },
        }
    }

    // Whether a node or one of its ancestors is at the end of a path. It is gone up from node to
    // node until the steps after the last `//` fit, and from there on those before it are looked
    // at: where they fit above a higher node, they fit above this one too.
    fn ends_above(
        &self,
        start: &Expr,
        steps: &[Expr],
        node: Node,
        context: &Context<'_>,
    ) -> Result<bool, AllocError>
        requires context { IsContext (K.tables self.now.keys.now) context.now }
        requires tree { IsTree context.now.tree }
        requires node { node < length context.now.tree }
        ensures ends { IfOk result (λ b. b ≡ ends_above (K.tables self.now.keys.now) context.now
            (tree_from start.now) (backwards steps.now) node) }
    {
        let mut steps = steps;
        let mut node = node;
        loop {
            match self.climb(start, steps, node, context) {
                Err(refused) => return Err(refused),
                Ok(Reached::Fits) => return Ok(true),
                Ok(Reached::Below(before, top)) => {
                    steps = before;
                    node = Node::at(top);
                }
                Ok(Reached::Differs) => match context.tree.parent(node) {
                    None => return Ok(false),
                    Some(parent) => node = parent,
                },
            }
        }
    }

    // The steps after the last `//` of a path, gone over from a node to its parents.
    fn climb<'p>(
        &self,
        start: &Expr,
        steps: &'p [Expr],
        node: Node,
        context: &Context<'_>,
    ) -> Result<Reached<'p>, AllocError>
        requires context { IsContext (K.tables self.now.keys.now) context.now }
        requires tree { IsTree context.now.tree }
        requires node { node < length context.now.tree }
        ensures reached { IfOk result (IsReached (K.tables self.now.keys.now) context.now
            (tree_from start.now) steps.now node) }
    {
        let mut steps = steps;
        let mut node = node;
        while let Some((step, before)) = steps.split_last() {
            if is_descend(step) {
                return Ok(behind_slashes(start, before, node));
            }
            match context.tree.parent(node) {
                None => return Ok(Reached::Differs),
                Some(parent) => {
                    if !self.leads_to(step, parent, node, context)? {
                        return Ok(Reached::Differs);
                    }
                    node = parent;
                    steps = before;
                }
            }
        }
        if self.begins(start, node, context)? {
            return Ok(Reached::Fits);
        }
        Ok(Reached::Differs)
    }
}

// What a `//` comes to, after which steps lead to a node. Where it stands at the head of a
// pattern, there is always a node above at which the path begins.
fn behind_slashes<'a>(start: &Expr, before: &'a [Expr], node: Node) -> Reached<'a>
    ensures { IsBehind (tree_from start.now) before.entry.now node result }
{
    if !before.is_empty() {
        return Reached::Below(before, node.place());
    }
    match start {
        Expr::Here => Reached::Fits,
        Expr::Root => Reached::Fits,
        _ => Reached::Below(before, node.place()),
    }
}

impl<'a, K: KeyFinder> Matcher<'a, K> {
    // Whether a path may begin at a node.
    fn begins(&self, start: &Expr, node: Node, context: &Context<'_>) -> Result<bool, AllocError>
        requires context { IsContext (K.tables self.now.keys.now) context.now }
        requires tree { IsTree context.now.tree }
        requires node { node < length context.now.tree }
        ensures begins { IfOk result (λ b. b ≡ is_among node
            (nodes_given (run_of (K.tables self.now.keys.now) start.now) (placed_at context.now
            node))) }
    {
        match start {
            Expr::Here => Ok(true),
            Expr::Root => Ok(is_root(context.tree, node)),
            _ => {
                let around = context.at_node(node, context.position, context.size);
                self.gives_itself(start, &around)
            }
        }
    }

    // Whether the context node is among those that an expression gives; for `key`, nothing else
    // that it gives is looked at.
    fn gives_itself(&self, start: &Expr, context: &Context<'_>) -> Result<bool, AllocError>
        requires context { IsContext (K.tables self.now.keys.now) context.now }
        ensures given { IfOk result (λ b. b ≡ is_among context.now.node
            (nodes_given (run_of (K.tables self.now.keys.now) start.now) context.now)) }
    {
        match key_call(start) {
            Some((name, text)) => self.is_given_by_key(name, text, context),
            None => self.is_given(start, context.node, context),
        }
    }
}

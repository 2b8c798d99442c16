//! Paths that begin with `key` (XSLT 1.0, 5.2 and 12.2): a node is looked for in the list that the
//! key's table keeps, which is in document order.

ghost use Rattle.std.specs.Prelude.{◌≡◌, ◌∷◌, [], IfOk, IfSome};
ghost use Rattle.xs_value.specs.NodeSet.{IsNodeList};
ghost use Rattle.xs_value.specs.Tables.{nodes_of, table_at};
ghost use Rattle.xs_xpath.specs.Exprs.{tree_from, trees_from};
ghost use Rattle.xs_xpath.specs.Tree.{literal};
ghost use Rattle.xs_eval_spec.specs.Evaluation.{run_of_tree};
ghost use Rattle.xs_pattern_spec.specs.Predicates.{is_among, nodes_given};
ghost use Rattle.xs_pattern.specs.steps.Keys.{has_node, key_call};

use crate::matcher::Matcher;
use std::alloc::AllocError;
use xs_eval::keys::number_of;
use xs_eval_spec::context::Context;
use xs_tree::Node;
use xs_value::keys::{KeyEnd, KeyFinder};
use xs_xpath::expr::Expr;
use xs_xpath::name::Function;

/// The name and the text of a call of `key` with two literals, as a pattern has it.
pub(crate) fn key_call(start: &Expr) -> Option<(&str, &str)>
    ensures { IfSome result (λ call. tree_from start.now ≡ key_call call.0.now call.1.now) }
{
    match start {
        Expr::Call(Function::Key, arguments) => two_literals(arguments),
        _ => None,
    }
}

// The texts of two expressions that are literals.
fn two_literals(exprs: &[Expr]) -> Option<(&str, &str)>
    ensures { IfSome result (λ texts. trees_from exprs.now
        ≡ literal texts.0.now ∷ literal texts.1.now ∷ []) }
{
    match exprs {
        [first, second] => {
            let name = literal(first)?;
            let text = literal(second)?;
            Some((name, text))
        }
        _ => None,
    }
}

// The text of an expression that is a literal.
fn literal(expr: &Expr) -> Option<&str>
    ensures { IfSome result (λ text. tree_from expr.now ≡ literal text.now) }
{
    match expr {
        Expr::Literal(text) => Some(text.as_str()),
        _ => None,
    }
}

impl<'a, K: KeyFinder> Matcher<'a, K> {
    /// Whether the context node is among those that a call of `key` gives.
    pub(crate) fn is_given_by_key(
        &self,
        name: &str,
        text: &str,
        context: &Context<'_>,
    ) -> Result<bool, AllocError>
        ensures given { IfOk result (λ b. b ≡ is_among context.now.node
            (nodes_given (run_of_tree (K.tables self.now.keys.now) (key_call name.now text.now))
            context.now)) }
    {
        match number_of(self.keys, context.scope, name) {
            Some(key) => self.has_node(key, text, context.node),
            None => Ok(false),
        }
    }

    // Whether a key's table has a node for a text. One that has a fault has none.
    fn has_node(&self, key: u32, text: &str, node: Node) -> Result<bool, AllocError>
        ensures has { IfOk result (λ b. b ≡ has_node (table_at (K.tables self.now.keys.now) key)
            (table_at (K.tables self.now.keys.now) key).fault text.now node) }
        ensures list { IsNodeList (nodes_of text.now
            (table_at (K.tables self.now.keys.now) key).entries) }
    {
        match self.keys.find(self.alloc, key, text) {
            Ok(found) => Ok(is_among(node, found.nodes())),
            Err(KeyEnd::Fault(_)) => Ok(false),
            Err(KeyEnd::NoMemory) => Err(AllocError),
        }
    }
}

/// Whether a node is among some that are in document order, by halving.
pub(crate) fn is_among(node: Node, nodes: &[Node]) -> bool
    requires { IsNodeList nodes.now }
    ensures { result ≡ is_among node nodes.now }
{
    nodes.binary_search(&node).is_ok()
}

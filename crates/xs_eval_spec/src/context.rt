//! Where an expression is evaluated.

use std::marker::Model;
use xs_tree::{Node, Tree};
use xs_value::value::Value;
use xs_xpath::scope::Scope;

/// The context of an expression (XPath 1.0, 1), with the current node of XSLT (XSLT 1.0, 12.4).
#[derive(Drop)]
pub struct Context<'a> {
    /// The documents.
    pub tree: &'a Tree,
    /// The context node.
    pub node: Node,
    /// The context position.
    pub position: u32,
    /// The context size.
    pub size: u32,
    /// The current node (XSLT 1.0, 12.4).
    pub current: Node,
    /// The values of the local variables, by their slots.
    pub locals: &'a [Value],
    /// The values of the global ones, by their slots; one that is not settled has none.
    pub globals: &'a [Option<Value>],
    /// The namespace declarations in scope for the expression.
    pub scope: &'a Scope,
}

impl<'a> Model for Context<'a> {
    ghost use Rattle.xs_eval_spec.specs.Context.{Context};

    ghost Value = { Context };

    ghost view = { λ c. record {
      tree = c.tree.now;
      node = c.node;
      position = c.position;
      size = c.size;
      current = c.current;
      locals = c.locals.now;
      globals = c.globals.now;
      scope = c.scope.now.pairs.items;
    } };
}

impl<'a> Context<'a> {
    ghost use Rattle.std.specs.Prelude.{◌≡◌};
    ghost use Rattle.xs_eval_spec.specs.Context.{at_node};

    /// The same with another context node, position and size.
    pub fn at_node(&self, node: Node, position: u32, size: u32) -> Context<'a>
        ensures { result ≡ at_node self.now node position size }
    {
        Context {
            node,
            position,
            size,
            ..*self
        }
    }
}

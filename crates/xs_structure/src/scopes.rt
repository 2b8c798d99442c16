//! The namespaces that are in scope at the nodes of a module, shared by nodes that have the same.

ghost use Rattle.std.specs.Prelude.{◌≡◌, ◌<◌, ◌&&◌, ◌∷◌, [], true, get_or, length, IfOk, IfSome};
ghost use Rattle.std.specs.Arc.{arc_value};
ghost use Rattle.std.specs.Str.{bytes_eq};
ghost use Rattle.xs_structure.specs.Scopes.{pairs_in, scopes_in, scopes_of};
ghost use Rattle.xs_elements.specs.Nodes.{pair_at, scope_at};
ghost use Rattle.xs_tree.specs.Record.{at, local_at};

use crate::standing::is_element;
use std::alloc::{AllocError, Global};
use std::sync::Arc;
use xs_text::TextBuf;
use xs_tree::{Node, Tree};
use xs_xpath::scope::Scope;

/// Of each node of a module, the namespaces that are in scope there.
#[derive(Drop)]
pub struct Scopes {
    of_nodes: Vec<Arc<Scope>>,
}

/// Whether a namespace node has the prefix and the URI of a pair.
fn is_pair(tree: &Tree, space: Node, pair: &(TextBuf, TextBuf)) -> bool
    requires { space < length tree.now }
    ensures { result ≡ (bytes_eq (local_at tree.now space) pair.now.0
        && bytes_eq (at tree.now space).text pair.now.1) }
{
    tree.local(space) == pair.0.as_str() && tree.text(space) == pair.1.as_str()
}

/// The pairs after the first one, if that is the pair of a namespace node.
fn behind<'p>(
    tree: &Tree,
    space: Node,
    pairs: &'p [(TextBuf, TextBuf)],
) -> Option<&'p [(TextBuf, TextBuf)]>
    requires { space < length tree.now }
    ensures { IfSome result (λ rest. pairs.now ≡ pair_at tree.now space ∷ rest.now) }
{
    match pairs.split_first() {
        Some((pair, rest)) => {
            if is_pair(tree, space, pair) {
                return Some(rest);
            }
            None
        }
        None => None,
    }
}

/// Whether these are the namespaces in scope at a node, in the order of the tree.
fn are_in_scope(tree: &Tree, n: Node, pairs: &[(TextBuf, TextBuf)]) -> bool
    requires { n < length tree.now }
    ensures { result ≡ true → pairs.now ≡ scope_at tree.now n }
{
    let mut rest = pairs;
    for space in tree.namespaces(n) {
        match behind(tree, space, rest) {
            Some(others) => rest = others,
            None => return false,
        }
    }
    rest.is_empty()
}

/// The pairs from the first on whose prefix does not come before that of a namespace node. Prefixes
/// rise, so there the node's own pair is, if the pairs have it. A hint, of which nothing is said.
fn from_prefix<'p>(
    tree: &Tree,
    space: Node,
    pairs: &'p [(TextBuf, TextBuf)],
) -> &'p [(TextBuf, TextBuf)]
    requires { space < length tree.now }
{
    let prefix = tree.local(space);
    let mut rest = pairs;
    while let Some((pair, behind)) = rest.split_first() {
        if pair.0.as_str() >= prefix {
            return rest;
        }
        rest = behind;
    }
    rest
}

/// The prefix and the URI of a namespace node, in memory of their own.
fn new_pair(alloc: Global, tree: &Tree, space: Node) -> Result<(TextBuf, TextBuf), AllocError>
    requires { space < length tree.now }
    ensures { IfOk result (λ pair. pair ≡ pair_at tree.now space) }
{
    let prefix = TextBuf::of(alloc, tree.local(space))?;
    let uri = TextBuf::of(alloc, tree.text(space))?;
    Ok((prefix, uri))
}

/// The prefix and the URI of a namespace node: those of the first pair, if they are the same.
fn pair_like(
    alloc: Global,
    tree: &Tree,
    space: Node,
    pairs: &[(TextBuf, TextBuf)],
) -> Result<(TextBuf, TextBuf), AllocError>
    requires { space < length tree.now }
    ensures { IfOk result (λ pair. pair ≡ pair_at tree.now space) }
{
    if let Some((pair, _)) = pairs.split_first() {
        if is_pair(tree, space, pair) {
            let prefix = pair.0.copy()?;
            let uri = pair.1.copy()?;
            return Ok((prefix, uri));
        }
    }
    new_pair(alloc, tree, space)
}

/// The namespaces in scope at a node, which shares the texts of the pairs that another one has too.
fn scope_beside(
    alloc: Global,
    tree: &Tree,
    n: Node,
    other: &[(TextBuf, TextBuf)],
) -> Result<Scope, AllocError>
    requires { n < length tree.now }
    ensures { IfOk result (λ scope. pairs_in scope ≡ scope_at tree.now n) }
{
    let mut pairs = Vec::new(alloc);
    let mut rest = other;
    for space in tree.namespaces(n) {
        rest = from_prefix(tree, space, rest);
        pairs.push(pair_like(alloc, tree, space, rest)?)?;
    }
    Ok(Scope::of(pairs))
}

/// The namespaces in scope at a node: those of another one, where they are the same.
fn scope_like(
    alloc: Global,
    tree: &Tree,
    n: Node,
    other: &Arc<Scope>,
) -> Result<Arc<Scope>, AllocError>
    requires { n < length tree.now }
    ensures { IfOk result (λ scope. pairs_in (arc_value scope) ≡ scope_at tree.now n) }
{
    if are_in_scope(tree, n, &other.pairs) {
        return Ok(Arc::try_clone(other)?);
    }
    let scope = scope_beside(alloc, tree, n, &other.pairs)?;
    Ok(Arc::new(alloc, scope)?)
}

/// The namespaces that a node is likely to have: an element those of its parent, which came before
/// it, any other node none. A hint, of which nothing is said.
fn likely<'s>(
    tree: &Tree,
    n: Node,
    before: &'s [Arc<Scope>],
    none: &'s Arc<Scope>,
) -> &'s Arc<Scope>
    requires { n < length tree.now }
{
    if !is_element(tree, n) {
        return none;
    }
    match tree.parent(n) {
        Some(parent) => match before.get(parent.place() as usize) {
            Some(scope) => scope,
            None => none,
        },
        None => none,
    }
}

impl Scopes {
    /// Those of a module.
    pub fn of(alloc: Global, tree: &Tree) -> Result<Scopes, AllocError>
        ensures { IfOk result (λ scopes. scopes_in scopes ≡ scopes_of tree.now) }
    {
        let none = Arc::new(alloc, Scope::of(Vec::new(alloc)))?;
        let mut of_nodes = Vec::new(alloc);
        for place in 0..tree.len() as u32 {
            let n = Node::at(place);
            let scope = scope_like(alloc, tree, n, likely(tree, n, &of_nodes, &none))?;
            of_nodes.push(scope)?;
        }
        Ok(Scopes { of_nodes })
    }

    /// Those of a node.
    pub fn at(&self, n: Node) -> Result<Arc<Scope>, AllocError>
        requires { n < length (scopes_in self.now) }
        ensures { IfOk result (λ scope. pairs_in (arc_value scope)
            ≡ get_or (scopes_in self.now) n []) }
    {
        Ok(Arc::try_clone(&self.of_nodes[n.place() as usize])?)
    }

    /// Those of a node, lent.
    pub fn get(&self, tree: &Tree, n: Node) -> &Scope
        requires inside { n < length tree.now }
        requires scopes { scopes_in self.now ≡ scopes_of tree.now }
        ensures { result.now.pairs.items ≡ scope_at tree.now n }
    {
        &self.of_nodes[n.place() as usize]
    }
}

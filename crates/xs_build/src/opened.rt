//! The elements that are open.

ghost use Rattle.std.specs.Prelude.{◌≡◌, not, reverse};
ghost use Rattle.std.specs.Str.{bytes_eq};
ghost use Rattle.xs_build.specs.steps.Lines.{innermost, is_innermost};
ghost use Rattle.xs_build.specs.Namespaces.{is_empty};

use crate::scope::Scope;
use std::marker::Model;
use xs_text::is_same;
use xs_tree::Node;

/// The name of an element as it is written, in the bytes of the document.
#[derive(Drop)]
pub struct WrittenName<'a> {
    text: &'a str,
}

impl<'a> Model for WrittenName<'a> {
    ghost use Rattle.std.specs.Prelude.{List, ℕ};

    ghost Value = { List ℕ };

    ghost view = { λ n. n.text.now };
}

impl<'a> WrittenName<'a> {
    /// The name that is written so.
    pub fn of(text: &'a str) -> WrittenName<'a>
        ensures { result ≡ text.now }
    {
        WrittenName { text }
    }

    /// The name itself.
    pub fn as_str(&self) -> &'a str
        ensures { result.now ≡ self.now }
    {
        self.text
    }

    /// Whether the name is written so.
    #[inline(always)]
    pub fn is(&self, text: &str) -> bool
        ensures { result ≡ bytes_eq self.now text.now }
    {
        is_same(self.text, text)
    }
}

/// An element whose end has not come: its name as it is written, its node, and the bindings in
/// force in it.
#[derive(Drop)]
pub struct Opened<'a> {
    /// The name as it is written.
    pub name: WrittenName<'a>,
    /// The element.
    pub node: Node,
    /// The bindings in force in it.
    pub scope: Scope,
}

/// The innermost open element, or else the root. The innermost stands last.
pub fn innermost(around: &[Opened<'_>]) -> Node
    ensures { result ≡ innermost (reverse around.now) }
{
    match around.split_last() {
        Some((element, _)) => element.node,
        None => Node::root(),
    }
}

/// Whether an element is open.
pub fn is_inside(around: &[Opened<'_>]) -> bool
    ensures { result ≡ not (is_empty (reverse around.now)) }
{
    match around.split_last() {
        Some(_) => true,
        None => false,
    }
}

/// Whether the innermost open element has this name.
#[inline(always)]
pub fn is_innermost(name: &str, around: &[Opened<'_>]) -> bool
    ensures { result ≡ is_innermost name.now (reverse around.now) }
{
    match around.split_last() {
        Some((element, _)) => element.name.is(name),
        None => false,
    }
}

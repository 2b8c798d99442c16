//! References to variables, and the bindings that are visible (XSLT 1.0, 11).

ghost use Rattle.std.specs.Prelude.{◌≡◌, not, Some};
ghost use Rattle.std.specs.List.{list_any};
ghost use Rattle.xs_static.specs.Expressions.{any_unknown, expressions, has_unknown};
ghost use Rattle.xs_static.specs.steps.Elements.{seen_by};
ghost use Rattle.xs_static.specs.steps.InForce.{visible_in};
ghost use Rattle.xs_xpath.specs.AvtParts.{parts_from};
ghost use Rattle.xs_xpath.specs.Exprs.{tree_from, trees_from};
ghost use Rattle.xs_xpath.specs.Tree.{trees};

use std::collections::HashSet;
use xs_elements::forms::{Form, sees_locals};
use xs_elements::scope::Expanded;
use xs_structure::in_force::InForce;
use xs_tree::InputHashes;
use xs_xpath::avt::AvtPart;
use xs_xpath::expr::Expr;

/// The bindings that are visible to a value: the global ones, and local ones if there are any.
#[derive(Clone, Copy)]
pub(crate) struct Visible<'v, 'm> {
    pub(crate) globals: &'v HashSet<Expanded<'m>, InputHashes>,
    pub(crate) locals: Option<&'v InForce<'m>>,
    /// The place of the element that has the value.
    pub(crate) place: u32,
}

impl<'v, 'm> Visible<'v, 'm> {
    /// Global bindings and local ones.
    pub(crate) fn all(
        globals: &'v HashSet<Expanded<'m>, InputHashes>,
        locals: &'v InForce<'m>,
        place: u32,
    ) -> Visible<'v, 'm>
        ensures globals { result.globals ≡ globals.entry }
        ensures locals { result.locals ≡ Some locals.entry }
        ensures place { result.place ≡ place }
    {
        let locals = Some(locals);
        Visible {
            globals,
            locals,
            place,
        }
    }

    /// Those that are visible to a value of some form.
    pub(crate) fn seen_by(&self, form: Form) -> Visible<'v, 'm>
        ensures { result ≡ seen_by self.now form }
    {
        if sees_locals(form) {
            *self
        } else {
            Visible {
                globals: self.globals,
                locals: None,
                place: self.place,
            }
        }
    }

    /// Whether a binding of this name is visible.
    fn has(&self, uri: &str, local: &str) -> bool
        ensures { result ≡ visible_in self.now uri.now local.now }
    {
        if self.globals.contains(&(uri, local)) {
            return true;
        }
        match self.locals {
            Some(locals) => locals.has(uri, local, self.place),
            None => false,
        }
    }
}

/// Whether one of some expressions has a variable without a visible binding.
#[cycle(unknown)]
pub(crate) fn any_unknown(es: &[Expr], visible: &Visible<'_, '_>) -> bool
    ensures { result ≡ any_unknown (visible_in visible.now) (trees (trees_from es.now)) }
{
    for e in es {
        if has_unknown(e, visible) {
            return true;
        }
    }
    false
}

/// Whether an expression has a variable without a visible binding.
#[cycle(unknown)]
pub(crate) fn has_unknown(e: &Expr, visible: &Visible<'_, '_>) -> bool
    ensures { result ≡ has_unknown (visible_in visible.now) (tree_from e.now) }
{
    match e {
        Expr::Number(_) => false,
        Expr::Literal(_) => false,
        Expr::Variable(uri, local, _) => !visible.has(uri.as_str(), local.as_str()),
        Expr::Call(_, es) => any_unknown(es, visible),
        Expr::Negative(_, e) => has_unknown(e, visible),
        Expr::Chain(_, es) => any_unknown(es, visible),
        Expr::Group(e) => has_unknown(e, visible),
        Expr::Here => false,
        Expr::Root => false,
        Expr::Step(_, _, es) => any_unknown(es, visible),
        Expr::Descend => false,
        Expr::Filter(e, es) => has_unknown(e, visible) || any_unknown(es, visible),
        Expr::Path(e, es) => has_unknown(e, visible) || any_unknown(es, visible),
    }
}

/// Whether an expression of a value template has one.
pub(crate) fn has_unknown_part(parts: &[AvtPart], visible: &Visible<'_, '_>) -> bool
    ensures { result
        ≡ list_any (has_unknown (visible_in visible.now)) (expressions (parts_from parts.now)) }
{
    let mut rest = parts;
    while let Some((part, behind)) = rest.split_first() {
        if let AvtPart::Computed(e) = part {
            if has_unknown(e, visible) {
                return true;
            }
        }
        rest = behind;
    }
    false
}

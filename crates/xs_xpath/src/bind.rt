//! References to variables, bound to slots (XSLT 1.0, 11).
ghost use Rattle.std.specs.Prelude.{◌≡◌, ℕ, List, IfOk};
ghost use Rattle.xs_xpath.specs.Binding.{bound, bounds, slot_in, slots_of};
ghost use Rattle.xs_xpath.specs.Exprs.{tree_from, trees_from};
ghost use Rattle.xs_xpath.specs.Tree.{trees};

use crate::expr::Expr;
use crate::name::Slot;
use std::alloc::{AllocError, Global};
use std::collections::HashMap;
use xs_trace::event::Label;

/// The slots of variables, by the URI and the local part of their names.
#[derive(Drop)]
pub struct Slots<'a> {
    slots: HashMap<(&'a str, &'a str), Slot>,
}

impl<'a> Slots<'a> {
    /// The slots of names, of a name that comes twice the last one.
    pub fn of(alloc: Global, entries: &'a [(Label, Slot)]) -> Result<Slots<'a>, AllocError>
        ensures slots { IfOk result (λ s. (uri local : List ℕ)
            → slots_of s uri local ≡ slot_in entries.now uri local) }
    {
        let mut slots = HashMap::new(alloc);
        let mut rest = entries;
        while let Some(((name, slot), behind)) = rest.split_first() {
            slots.insert((name.uri(), name.local()), *slot)?;
            rest = behind;
        }
        Ok(Slots { slots })
    }

    /// The slot of a name.
    pub fn slot_of(&self, uri: &str, local: &str) -> Option<Slot>
        ensures slot { result ≡ slots_of self.now uri.now local.now }
    {
        self.slots.get(&(uri, local)).copied()
    }
}

/// Binds the references in expressions.
#[cycle(bindings)]
fn bind_all(es: &mut Vec<Expr>, slots: &Slots<'_>)
    ensures all { trees (trees_from es.new.items)
        ≡ bounds (slots_of slots.now) (trees (trees_from es.old.items)) }
{
    for i in 0..es.len() {
        bind_in(&mut es[i], slots);
    }
}

/// Binds the references in an expression that stands in a box.
#[cycle(bindings)]
fn bind_boxed(e: &mut Box<Expr>, slots: &Slots<'_>)
    ensures tree { tree_from e.new.value ≡ bound (slots_of slots.now) (tree_from e.old.value) }
{
    bind_in(e, slots);
}

/// Binds the references in an expression.
#[cycle(bindings)]
fn bind_in(e: &mut Expr, slots: &Slots<'_>)
    ensures tree { tree_from e.new ≡ bound (slots_of slots.now) (tree_from e.old) }
{
    match e {
        Expr::Variable(uri, local, slot) => {
            *slot = slots.slot_of(uri.as_str(), local.as_str());
        }
        Expr::Call(_, es) => bind_all(es, slots),
        Expr::Negative(_, e) => bind_boxed(e, slots),
        Expr::Chain(_, es) => bind_all(es, slots),
        Expr::Group(e) => bind_boxed(e, slots),
        Expr::Step(_, _, es) => bind_all(es, slots),
        Expr::Filter(e, es) => {
            bind_boxed(e, slots);
            bind_all(es, slots);
        }
        Expr::Path(e, es) => {
            bind_boxed(e, slots);
            bind_all(es, slots);
        }
        Expr::Number(_) | Expr::Literal(_) | Expr::Here | Expr::Root | Expr::Descend => {}
    }
}

/// The expression with each variable bound to the slot of its name, if it has one. All else stays.
pub fn bind(mut e: Expr, slots: &Slots<'_>) -> Expr
    ensures tree { tree_from result ≡ bound (slots_of slots.now) (tree_from e) }
{
    bind_in(&mut e, slots);
    e
}

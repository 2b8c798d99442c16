//! The places of rules by the kinds of nodes that they may match.

ghost use Rattle.std.specs.Prelude.{◌≡◌, [], OnOk};
ghost use Rattle.xs_tree.specs.declared.kinds.Kind.{Kind};
ghost use Rattle.xs_xpath.specs.Exprs.{tree_from};
ghost use Rattle.xs_rules.specs.steps.Index.{with_place};
ghost use Rattle.xs_rules.specs.steps.Kinds.{allows_kind};
ghost use Rattle.xs_rules.specs.steps.Lists.{places_for};

use crate::rule_kinds::allows_kind;
use std::alloc::{AllocError, Global};
use xs_tree::Kind;
use xs_xpath::expr::Expr;

/// A list of places for each kind.
#[derive(Drop)]
pub(crate) struct KindLists {
    pub(crate) roots: Vec<usize>,
    pub(crate) elements: Vec<usize>,
    pub(crate) attributes: Vec<usize>,
    pub(crate) spaces: Vec<usize>,
    pub(crate) texts: Vec<usize>,
    pub(crate) comments: Vec<usize>,
    pub(crate) instructions: Vec<usize>,
}

impl KindLists {
    /// Lists without places.
    pub(crate) fn new(alloc: Global) -> KindLists
        ensures { (kind : Kind) → places_for kind result ≡ [] }
    {
        KindLists {
            roots: Vec::new(alloc),
            elements: Vec::new(alloc),
            attributes: Vec::new(alloc),
            spaces: Vec::new(alloc),
            texts: Vec::new(alloc),
            comments: Vec::new(alloc),
            instructions: Vec::new(alloc),
        }
    }

    /// The places for a kind.
    pub(crate) fn of_kind(&self, kind: Kind) -> &[usize]
        ensures { result.now ≡ places_for kind self.now }
    {
        match kind {
            Kind::Root => self.roots.as_slice(),
            Kind::Element => self.elements.as_slice(),
            Kind::Attribute => self.attributes.as_slice(),
            Kind::Space => self.spaces.as_slice(),
            Kind::Text => self.texts.as_slice(),
            Kind::Comment => self.comments.as_slice(),
            Kind::Pi => self.instructions.as_slice(),
        }
    }

    /// Adds the place of an alternative to the lists of the kinds that it may match.
    pub(crate) fn add(&mut self, alternative: &Expr, place: usize) -> Result<(), AllocError>
        ensures { OnOk result ((kind : Kind) → places_for kind self.new
            ≡ with_place (allows_kind (tree_from alternative.now) kind) place
            (places_for kind self.old)) }
    {
        add_if(allows_kind(alternative, Kind::Root), place, &mut self.roots)?;
        add_if(
            allows_kind(alternative, Kind::Element),
            place,
            &mut self.elements,
        )?;
        add_if(
            allows_kind(alternative, Kind::Attribute),
            place,
            &mut self.attributes,
        )?;
        add_if(
            allows_kind(alternative, Kind::Space),
            place,
            &mut self.spaces,
        )?;
        add_if(allows_kind(alternative, Kind::Text), place, &mut self.texts)?;
        add_if(
            allows_kind(alternative, Kind::Comment),
            place,
            &mut self.comments,
        )?;
        add_if(
            allows_kind(alternative, Kind::Pi),
            place,
            &mut self.instructions,
        )
    }
}

// Adds a place to a list that it is in.
fn add_if(is_in: bool, place: usize, places: &mut Vec<usize>) -> Result<(), AllocError>
    ensures { OnOk result (places.new.items ≡ with_place is_in place places.old.items) }
{
    if is_in {
        places.push(place)?;
    }
    Ok(())
}

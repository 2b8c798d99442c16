//! Attribute sets (XSLT 1.0, 7.1.4).

ghost use Rattle.std.specs.Prelude.{◌≡◌, ◌<◌, ◌-◌, length, map, option_map, slice_get, OnOk};
ghost use Rattle.xs_body.specs.steps.Frames.{declared_begun, declared_works, pushed, set_begun};
ghost use Rattle.xs_body.specs.steps.Frames.{sets_begun, sets_left_works, sets_works};
ghost use Rattle.xs_body_spec.specs.World.{all_set_levels, with_levels};
ghost use Rattle.xs_attribute_sets.specs.Indexed.{declarations_in};

use crate::evaluator::Evaluator;
use crate::frames::{Frame, Scope};
use std::alloc::AllocError;
use xs_body_spec::finder::Finder;
use xs_body_spec::focus::Focus;
use xs_sheet::declarations::AttrSet;
use xs_trace::event::Label;

impl<'a, K: Finder> Evaluator<'a, K> {
    /// In a template, which may begin one level of templates less, and all levels of sets.
    pub(crate) fn in_template(&self, focus: Focus) -> Focus
        requires deep { 0 < focus.depth }
        ensures { result
            ≡ with_levels (focus.depth - 1) (all_set_levels self.now.world) focus }
    {
        focus.with_levels(focus.depth - 1, self.sheet.sets.as_slice().len())
    }

    /// Puts the attribute sets of some names before what else is to be done, where there are any.
    pub(crate) fn push_sets(&mut self, names: &'a [Label], focus: Focus) -> Result<(), AllocError>
        requires node { focus.node < length self.old.world.tree }
        ensures pushed { OnOk result (self.new ≡ pushed (sets_works names.now focus) self.old) }
    {
        if names.is_empty() {
            return Ok(());
        }
        if focus.set_levels == 0 {
            return Ok(());
        }
        let focus = focus.with_levels(focus.depth, focus.set_levels - 1);
        self.push(Frame::Sets(names, focus))
    }

    /// The next of some sets: its first declaration.
    pub(crate) fn next_set(&mut self, names: &'a [Label], focus: Focus) -> Result<(), AllocError>
        requires node { focus.node < length self.old.world.tree }
        ensures begun { OnOk result (self.new ≡ sets_begun names.now focus self.old) }
    {
        match names.split_first() {
            None => Ok(()),
            Some((name, others)) => {
                self.push_others(others, focus)?;
                self.next_declaration(name, 0, focus)
            }
        }
    }

    /// Puts the sets that are left before what else is to be done, where there are any.
    fn push_others(&mut self, names: &'a [Label], focus: Focus) -> Result<(), AllocError>
        requires node { focus.node < length self.old.world.tree }
        ensures pushed { OnOk result
            (self.new ≡ pushed (sets_left_works names.now focus) self.old) }
    {
        if names.is_empty() {
            return Ok(());
        }
        self.push(Frame::Sets(names, focus))
    }

    /// The next declaration of a set, before those after it.
    #[inline(always)]
    pub(crate) fn next_declaration(
        &mut self,
        name: &'a Label,
        next: usize,
        focus: Focus,
    ) -> Result<(), AllocError>
        requires node { focus.node < length self.old.world.tree }
        ensures begun { OnOk result (self.new ≡ declared_begun name.now next focus self.old) }
    {
        let all = self.declarations(name);
        match declaration_at(all, next) {
            None => Ok(()),
            Some(set) => {
                let after = next.checked_add(1).ok_or(AllocError)?;
                self.push_declared(name, after, declaration_at(all, after), focus)?;
                self.begin_declaration(set, focus)
            }
        }
    }

    /// The declarations of a set.
    fn declarations(&self, name: &'a Label) -> &'a [&'a AttrSet]
        ensures all { map (λ s. s.now) result.now ≡ declarations_in self.now.world.index name.now }
    {
        let index = self.index;
        index.declarations(name)
    }

    /// Puts the declarations of a set from a place on before what else is to be done, where there
    /// is one.
    fn push_declared(
        &mut self,
        name: &'a Label,
        place: usize,
        declaration: Option<&'a AttrSet>,
        focus: Focus,
    ) -> Result<(), AllocError>
        requires node { focus.node < length self.old.world.tree }
        ensures pushed { OnOk result (self.new ≡ pushed
            (declared_works (option_map (λ s. s.now) declaration.entry) name.now place focus)
            self.old) }
    {
        match declaration {
            None => Ok(()),
            Some(_) => self.push(Frame::Declared(name, place, focus)),
        }
    }

    /// A declaration of a set begins: first the sets that it uses, then its attributes.
    fn begin_declaration(&mut self, set: &'a AttrSet, focus: Focus) -> Result<(), AllocError>
        requires node { focus.node < length self.old.world.tree }
        ensures begun { OnOk result (self.new ≡ set_begun set.now focus self.old) }
    {
        self.push(Frame::Rest(set.attributes.as_slice(), Scope::outer(focus)))?;
        self.push_sets(set.sets.as_slice(), focus)
    }
}

/// The declaration at a place.
fn declaration_at<'a>(all: &'a [&'a AttrSet], place: usize) -> Option<&'a AttrSet>
    ensures declaration { option_map (λ s. s.now) result
        ≡ slice_get (map (λ s. s.now) all.now) place }
{
    all.get(place).copied()
}

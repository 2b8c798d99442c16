//! The names that a stylesheet declares: global variables and templates.

ghost use Rattle.std.specs.Prelude.{◌≡◌, ℕ, ◌&&◌, ◌||◌, ◌==◌, false, List, [], ◌∷◌, ◌++◌};
ghost use Rattle.std.specs.Prelude.{option_map, IfOk, OnOk};
ghost use Rattle.std.specs.List.{All};
ghost use Rattle.std.specs.Option.{option_map_or};
ghost use Rattle.xs_elements.specs.Nodes.{is_same_name, name_data};
ghost use Rattle.xs_elements.specs.Tags.{is_template, is_variable};
ghost use Rattle.xs_modules.specs.Results.{modules_data};
ghost use Rattle.xs_structure.specs.Modules.{Place};
ghost use Rattle.xs_static.specs.steps.Declared.{AreDeclared, Noted, is_ranked, name_faults};
ghost use Rattle.xs_static.specs.steps.Declared.{names_faults};
ghost use Rattle.xs_static.specs.steps.Found.{has_template};
ghost use Rattle.xs_static.specs.steps.InForce.{is_among};
ghost use Rattle.xs_static.specs.steps.Least.{least_of};
ghost use Rattle.xs_structure.specs.Places.{HaveLines, IsIn};

use crate::fault::Least;
use crate::numbers::{DOUBLE_GLOBAL, DOUBLE_TEMPLATE};
use std::alloc::{AllocError, Global};
use std::collections::HashSet;
use xs_elements::scope::{Expanded, own_name};
use xs_elements::tags::{Tag, tag_of};
use xs_modules::Modules;
use xs_structure::hashes::hashes_of;
use xs_structure::places::Place;
use xs_tree::{InputHashes, Node};

/// Names of one kind.
#[derive(Drop)]
struct Declared<'m> {
    /// All of them.
    names: HashSet<Expanded<'m>, InputHashes>,
    /// The same with the precedences of their declarations.
    ranked: HashSet<(u32, Expanded<'m>), InputHashes>,
}

impl<'m> Declared<'m> {
    /// None, in tables with these hashes.
    fn new(alloc: Global, hashes: InputHashes) -> Declared<'m>
        ensures names { result.names.keys ≡ [] }
        ensures ranked { result.ranked.keys ≡ [] }
    {
        Declared {
            names: HashSet::with_hasher(alloc, hashes),
            ranked: HashSet::with_hasher(alloc, hashes),
        }
    }

    /// One more declaration. Answers whether there was one of its name and its precedence.
    fn declare(&mut self, precedence: u32, name: Expanded<'m>) -> Result<bool, AllocError>
        ensures answer { IfOk result (λ was. was
            ≡ is_ranked self.old.ranked.keys precedence (name_data name.entry)) }
        ensures names { OnOk result ((uri local : List ℕ)
            → is_among self.new.names.keys (uri, local)
            ≡ (is_same_name (uri, local) (name_data name.entry)
            || is_among self.old.names.keys (uri, local))) }
        ensures ranked { OnOk result ((rank : ℕ) (uri local : List ℕ)
            → is_ranked self.new.ranked.keys rank (uri, local)
            ≡ ((is_same_name (uri, local) (name_data name.entry) && precedence == rank)
            || is_ranked self.old.ranked.keys rank (uri, local))) }
    {
        self.names.insert(name)?;
        let is_first = self.ranked.insert((precedence, name))?;
        Ok(!is_first)
    }

    /// The declaration of an element, if it is one of this kind and has a name. Answers whether
    /// there was one of its name and its precedence.
    fn note(
        &mut self,
        is_kind: bool,
        precedence: u32,
        name: Option<Expanded<'m>>,
    ) -> Result<bool, AllocError>
        ensures answer { IfOk result (λ was. was ≡ (is_kind && option_map_or
            (is_ranked self.old.ranked.keys precedence) (option_map name_data name.entry) false)) }
        ensures noted { OnOk result (Noted self.old self.new is_kind precedence
            (option_map name_data name.entry)) }
    {
        if !is_kind {
            return Ok(false);
        }
        match name {
            Some(name) => self.declare(precedence, name),
            None => Ok(false),
        }
    }
}

/// Whether an element binds a variable (11).
fn is_variable(tag: Tag) -> bool
    ensures { result ≡ is_variable tag }
{
    matches!(tag, Tag::Variable | Tag::Param)
}

/// Whether an element is a template (5.3, 6).
fn is_template(tag: Tag) -> bool
    ensures { result ≡ is_template tag }
{
    matches!(tag, Tag::Template)
}

/// The names of global variables and parameters, and of templates.
#[derive(Drop)]
pub(crate) struct Names<'m> {
    globals: Declared<'m>,
    templates: Declared<'m>,
}

impl<'m> Names<'m> {
    /// None, in tables with these hashes.
    fn new(alloc: Global, hashes: InputHashes) -> Names<'m>
        ensures globals { result.globals.names.keys ≡ [] }
        ensures ranked_globals { result.globals.ranked.keys ≡ [] }
        ensures templates { result.templates.names.keys ≡ [] }
        ensures ranked_templates { result.templates.ranked.keys ≡ [] }
    {
        Names {
            globals: Declared::new(alloc, hashes),
            templates: Declared::new(alloc, hashes),
        }
    }

    /// The names that a stylesheet declares. The faults of their declarations are met.
    pub(crate) fn of(
        alloc: Global,
        modules: &'m Modules,
        declared: &[Place],
        least: &mut Least,
    ) -> Result<Names<'m>, AllocError>
        requires inside { All (IsIn (modules_data modules.now)) declared.now }
        requires lines { HaveLines (modules_data modules.now) }
        ensures names { IfOk result (λ names.
            AreDeclared (modules_data modules.now) declared.now names) }
        ensures faults { OnOk result (least.new.fault ≡ least_of least.old.fault
            (names_faults (modules_data modules.now) [] declared.now)) }
    {
        let mut names = Names::new(alloc, hashes_of(modules));
        let mut rest = declared;
        while let Some((place, behind)) = rest.split_first() {
            let (number, element) = *place;
            names.declare(modules, number, element, least)?;
            rest = behind;
        }
        Ok(names)
    }

    /// The names of global variables and parameters.
    pub(crate) fn globals(&self) -> &HashSet<Expanded<'m>, InputHashes>
        ensures { result.now ≡ self.now.globals.names }
    {
        &self.globals.names
    }

    /// The hashes of the tables.
    pub(crate) fn hashes(&self) -> InputHashes {
        *self.globals.names.hasher()
    }

    /// Whether a template has this name.
    pub(crate) fn has_template(&self, name: &Expanded<'_>) -> bool
        ensures { result ≡ has_template self.now (name_data name.now) }
    {
        self.templates.names.contains(name)
    }

    /// An element of the top level more.
    fn declare(
        &mut self,
        modules: &'m Modules,
        number: u32,
        element: Node,
        least: &mut Least,
    ) -> Result<(), AllocError>
        requires inside { IsIn (modules_data modules.now) («number», element) }
        requires lines { HaveLines (modules_data modules.now) }
        ensures names { OnOk result ((done : List Place)
            → AreDeclared (modules_data modules.now) done self.old
            → AreDeclared (modules_data modules.now) (done ++ («number», element) ∷ []) self.new) }
        ensures faults { OnOk result ((done : List Place)
            → AreDeclared (modules_data modules.now) done self.old
            → least.new.fault ≡ least_of least.old.fault
            (name_faults (modules_data modules.now) done («number», element))) }
    {
        let module = &modules.list[number as usize];
        let tag = tag_of(&module.tree, element);
        let name = own_name(&module.tree, element);
        let line = module.lines[element.place() as usize];
        let precedence = module.precedence;
        let is_double = self.globals.note(is_variable(tag), precedence, name)?;
        least.meet_where(is_double, number, line, DOUBLE_GLOBAL);
        let is_again = self.templates.note(is_template(tag), precedence, name)?;
        least.meet_where(is_again, number, line, DOUBLE_TEMPLATE);
        Ok(())
    }
}

//! The children of an element: its parts, and those that are its body.

ghost use Rattle.std.specs.Prelude.{◌≡◌, ◌++◌, ◌∷◌, [], ℕ, List, true, map, IfOk, OnOk};
ghost use Rattle.std.specs.Prelude.{if◌then◌else◌};
ghost use Rattle.std.specs.List.{All};
ghost use Rattle.xs_structure.specs.Parts.{body_at, children_with, is_in_body, reading_at, tag_at};
ghost use Rattle.xs_compile.specs.steps.Tags.{holds_body, part_test};
ghost use Rattle.xs_compile.specs.steps.State.{IsInBody, IsPartOf, IsReady, modules_of};
ghost use Rattle.xs_structure.specs.Places.{IsIn};
ghost use Rattle.xs_elements.specs.declared.tags.Tag.{Tag};
ghost use Rattle.xs_elements.specs.Reading.{content_at, shows};
ghost use Rattle.xs_elements.specs.WhiteSpace.{preserves};
ghost use Rattle.xs_modules.specs.Results.{modules_data};
ghost use Rattle.xs_structure.specs.Modules.{records_at};

use crate::compiler::Compiler;
use std::alloc::{AllocError, Global};
use xs_elements::tags::Tag;
use xs_modules::Modules;
use xs_structure::places::{Place, is_in_body, tag_at, tree_of};
use xs_tree::Node;

/// The parts of elements that are known by their kind (XSLT 1.0, 5.3, 7.1.4, 9.2, 10, 11.6 and 15).
#[derive(Clone, Copy)]
pub(crate) enum Part {
    Attribute,
    Fallback,
    Otherwise,
    Param,
    Sort,
    When,
    WithParam,
}

/// Whether an element is such a part.
fn is_part(part: Part, tag: Tag) -> bool
    ensures { result ≡ part_test part tag }
{
    match part {
        Part::Attribute => matches!(tag, Tag::Attribute),
        Part::Fallback => matches!(tag, Tag::Fallback),
        Part::Otherwise => matches!(tag, Tag::Otherwise),
        Part::Param => matches!(tag, Tag::Param),
        Part::Sort => matches!(tag, Tag::Sort),
        Part::When => matches!(tag, Tag::When),
        Part::WithParam => matches!(tag, Tag::WithParam),
    }
}

/// Adds a child, if it is such a part.
fn push_part(
    modules: &Modules,
    number: u32,
    child: Node,
    part: Part,
    out: &mut Vec<Place>,
) -> Result<(), AllocError>
    requires at { IsIn (modules_data modules.now) («number», child) }
    ensures { OnOk result (out.new.items
        ≡ (if part_test part (tag_at (modules_data modules.now) («number», child))
        then out.old.items ++ («number», child) ∷ [] else out.old.items)) }
{
    if is_part(part, tag_at(modules, number, child)) {
        out.push((number, child))?;
    }
    Ok(())
}

/// Adds a child, if it is in the body of its parent.
fn push_in_body(
    modules: &Modules,
    number: u32,
    inside: Node,
    child: Node,
    preserved: bool,
    out: &mut Vec<Place>,
) -> Result<(), AllocError>
    requires at { IsIn (modules_data modules.now) («number», inside) }
    requires child { IsIn (modules_data modules.now) («number», child) }
    requires space { preserved
        ≡ preserves (records_at (modules_data modules.now) «number») inside }
    ensures { OnOk result (out.new.items
        ≡ (if is_in_body (modules_data modules.now) («number», inside) («number», child)
        then out.old.items ++ («number», child) ∷ [] else out.old.items)) }
{
    if is_in_body(modules, number, inside, child, preserved) {
        out.push((number, child))?;
    }
    Ok(())
}

/// The children of an element that are such parts.
fn parts_at(
    alloc: Global,
    modules: &Modules,
    number: u32,
    n: Node,
    part: Part,
) -> Result<Vec<Place>, AllocError>
    requires at { IsIn (modules_data modules.now) («number», n) }
    ensures { IfOk result (λ places. places.items
        ≡ children_with (part_test part) (modules_data modules.now) («number», n)) }
{
    let mut places = Vec::new(alloc);
    for child in tree_of(modules, number).children(n) {
        push_part(modules, number, child, part, &mut places)?;
    }
    Ok(places)
}

/// The children of an element that are its body.
fn body_at(
    alloc: Global,
    modules: &Modules,
    number: u32,
    n: Node,
    preserved: bool,
) -> Result<Vec<Place>, AllocError>
    requires at { IsIn (modules_data modules.now) («number», n) }
    requires space { preserved ≡ preserves (records_at (modules_data modules.now) «number») n }
    ensures { IfOk result (λ places. places.items
        ≡ body_at (modules_data modules.now) («number», n)) }
{
    let mut places = Vec::new(alloc);
    for child in tree_of(modules, number).children(n) {
        push_in_body(modules, number, n, child, preserved, &mut places)?;
    }
    Ok(places)
}

impl<'m> Compiler<'m> {
    /// The parts of an element, each of which is looked at.
    pub(crate) fn parts(&self, number: u32, n: Node, part: Part) -> Result<Vec<Place>, AllocError>
        requires ready { IsReady self.now («number», n) }
        requires shown { (tag : Tag) → part_test part tag ≡ true
            → shows (reading_at (modules_of self.now) («number», n)) tag ≡ true }
        ensures places { IfOk result (λ places. places.items
            ≡ children_with (part_test part) (modules_of self.now) («number», n)) }
        ensures parts { IfOk result (λ places.
            All (IsPartOf self.now («number», n) part) places.items) }
    {
        parts_at(self.alloc, self.modules, number, n, part)
    }

    /// What an element has as its body.
    pub(crate) fn body_places(&self, number: u32, n: Node) -> Result<Vec<Place>, AllocError>
        requires ready { IsReady self.now («number», n) }
        requires content { holds_body
            (content_at (records_at (modules_of self.now) «number») n) ≡ true }
        ensures places { IfOk result (λ places. places.items
            ≡ body_at (modules_of self.now) («number», n)) }
        ensures body { IfOk result (λ places.
            All (IsInBody self.now («number», n)) places.items) }
    {
        let preserved = self.standing(number, n).preserves;
        body_at(self.alloc, self.modules, number, n, preserved)
    }
}

//! The declarations of a stylesheet, in its order: what a module declares that is included or
//! imported stands in the place of the element that mentions it (XSLT 1.0, 2.6).

ghost use Rattle.std.specs.Prelude.{◌≡◌, ◌<◌, ◌≤◌, [], ◌∷◌, ◌++◌, length, map, IfOk, OnOk, IfSome};
ghost use Rattle.std.specs.Prelude.{if◌then◌else◌, false};
ghost use Rattle.std.specs.List.{All};
ghost use Rattle.std.specs.Option.{option_map_or};
ghost use Rattle.xs_structure.specs.Order.{declarations, declarations_from, is_declaration};
ghost use Rattle.xs_structure.specs.Order.{own_declarations};
ghost use Rattle.xs_structure.specs.Places.{IsIn};
ghost use Rattle.xs_structure.specs.steps.Order.{declarations_of_element};
ghost use Rattle.xs_modules.specs.Reading.{most_modules};
ghost use Rattle.xs_modules.specs.Results.{module_data, modules_data};
ghost use Rattle.xs_modules.specs.Sound.{IsSound};
ghost use Rattle.xs_structure.specs.Modules.{is_same_place, mentioned};

use crate::places::Place;
use std::alloc::{AllocError, Global};
use xs_elements::tags::{Tag, is_document_element, is_top_level, tag_of};
use xs_modules::{Module, Modules};
use xs_tree::{Kind, Node, Tree};

/// Whether an element mentions this module.
fn is_mentioned_by(module: &Module, number: u32, n: Node) -> bool
    ensures { result ≡ option_map_or (is_same_place («number», n))
        (module_data module.now).mention false }
{
    match module.mention {
        Some((from, node)) => number == from && n.place() == node.place(),
        None => false,
    }
}

/// The module that an element mentions.
fn mentioned(modules: &[Module], number: u32, n: Node) -> Option<u32>
    requires few { length modules.now ≤ most_modules }
    ensures found { result ≡ mentioned (map module_data modules.now) («number», n) }
    ensures inside { IfSome result (λ m. m < length modules.now) }
{
    for other in 0..modules.len() {
        if is_mentioned_by(&modules[other], number, n) {
            return Some(other as u32);
        }
    }
    None
}

/// Whether a node is a declaration: an element of the top level (2.2), or one that is no XSLT and
/// represents a whole module (2.3).
fn is_declaration(tree: &Tree, n: Node) -> bool
    requires { n < length tree.now }
    ensures { result ≡ is_declaration tree.now n }
{
    if matches!(tree.kind(n), Kind::Element) && is_top_level(tree, n) {
        return true;
    }
    is_document_element(tree, n) && matches!(tag_of(tree, n), Tag::Other)
}

/// Adds a node to the declarations of a module, if it is one.
fn push_if_declared(tree: &Tree, n: Node, found: &mut Vec<Node>) -> Result<(), AllocError>
    requires { n < length tree.now }
    ensures { OnOk result (found.new.items
        ≡ (if is_declaration tree.now n then found.old.items ++ n ∷ [] else found.old.items)) }
{
    if is_declaration(tree, n) {
        found.push(n)?;
    }
    Ok(())
}

/// What a module declares.
fn own_declarations(alloc: Global, tree: &Tree) -> Result<Vec<Node>, AllocError>
    ensures { IfOk result (λ found. found.items ≡ own_declarations tree.now) }
{
    let mut found = Vec::new(alloc);
    for place in 0..tree.len() as u32 {
        push_if_declared(tree, Node::at(place), &mut found)?;
    }
    Ok(found)
}

/// Adds a declaration, or what the module declares that it mentions, which is at most so many
/// mentions deep.
#[cycle(pushing)]
fn push_element(
    alloc: Global,
    modules: &[Module],
    depth: usize,
    number: u32,
    n: Node,
    out: &mut Vec<Place>,
) -> Result<(), AllocError>
    requires few { length modules.now ≤ most_modules }
    ensures { OnOk result (out.new.items ≡ out.old.items
        ++ declarations_of_element depth (map module_data modules.now) («number», n)) }
{
    match mentioned(modules, number, n) {
        Some(inner) => push_declarations(alloc, modules, depth, inner, out),
        None => {
            out.push((number, n))?;
            Ok(())
        }
    }
}

/// Adds what a module declares, at most so many mentions deep.
#[cycle(pushing)]
fn push_declarations(
    alloc: Global,
    modules: &[Module],
    depth: usize,
    number: u32,
    out: &mut Vec<Place>,
) -> Result<(), AllocError>
    requires few { length modules.now ≤ most_modules }
    requires inside { «number» < length modules.now }
    ensures { OnOk result (out.new.items ≡ out.old.items
        ++ declarations_from depth (map module_data modules.now) «number») }
{
    if depth == 0 {
        return Ok(());
    }
    let elements = own_declarations(alloc, &modules[number as usize].tree)?;
    for element in &elements {
        push_element(alloc, modules, depth - 1, number, *element, out)?;
    }
    Ok(())
}

/// The declarations of a stylesheet.
pub fn declarations(alloc: Global, modules: &Modules) -> Result<Vec<Place>, AllocError>
    requires sound { IsSound (modules_data modules.now) }
    ensures places { IfOk result (λ places. places.items
        ≡ declarations (modules_data modules.now)) }
    ensures inside { IfOk result (λ places. All (IsIn (modules_data modules.now)) places.items) }
{
    let mut out = Vec::new(alloc);
    push_declarations(alloc, &modules.list, modules.list.len(), 0, &mut out)?;
    Ok(out)
}

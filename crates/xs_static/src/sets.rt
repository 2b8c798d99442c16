//! Attribute sets that use themselves (XSLT 1.0, 7.1.4).

ghost use Rattle.std.specs.Prelude.{◌≡◌, ◌<◌, ◌++◌, length, map, option_map, slice_index, IfOk};
ghost use Rattle.std.specs.Prelude.{OnOk};
ghost use Rattle.std.specs.List.{All};
ghost use Rattle.xs_static.specs.Declarations.{declared};
ghost use Rattle.xs_elements.specs.Contents.{is_attribute};
ghost use Rattle.xs_elements.specs.Nodes.{expanded, name_data};
ghost use Rattle.xs_elements.specs.Tags.{is_attribute_set, tag_of};
ghost use Rattle.xs_elements.specs.Reading.{is_seen};
ghost use Rattle.xs_modules.specs.Results.{modules_data};
ghost use Rattle.xs_static.specs.Faults.{IsLeastOf, IsStaticFault};
ghost use Rattle.xs_structure.specs.Modules.{Place};
ghost use Rattle.xs_structure.specs.Order.{declarations};
ghost use Rattle.xs_static.specs.Sets.{attribute_sets, listed, named_sets, names_in, own_sets};
ghost use Rattle.xs_static.specs.Sets.{sets_value, sets_within};
ghost use Rattle.xs_static.specs.steps.Circles.{circle_at, declaration_at, declaration_from};
ghost use Rattle.xs_static.specs.steps.Circles.{declarations_of, declared_as, seen_sets};
ghost use Rattle.xs_static.specs.steps.Whole.{AreWalked, IsWalked};
ghost use Rattle.xs_structure.specs.Places.{HaveLines, IsIn};

use crate::circles::Declaration;
use crate::fault::StaticFault;
use crate::numbers::CIRCULAR_SET;
use crate::walk::Walked;
use std::alloc::{AllocError, Global};
use xs_elements::scope::{Expanded, own_name, value_of};
use xs_elements::tags::{Tag, XSLT_URI, tag_of};
use xs_elements::words::first_word;
use xs_modules::{Module, Modules};
use xs_structure::places::Place;
use xs_structure::standing::standing_in;
use xs_text::split_qname;
use xs_tree::{Node, Tree};
use xs_xpath::scope::Scope;

/// The value of the attribute that names the sets that an element uses, if it has one.
fn sets_value(tree: &Tree, n: Node) -> Option<&str>
    requires { n < length tree.now }
    ensures { option_map (λ value. value.now) result
        ≡ sets_value (tag_of tree.now n) tree.now n }
{
    match tag_of(tree, n) {
        Tag::AttributeSet => value_of(tree, n, "", "use-attribute-sets"),
        Tag::Element => value_of(tree, n, "", "use-attribute-sets"),
        Tag::Copy => value_of(tree, n, "", "use-attribute-sets"),
        Tag::Other => value_of(tree, n, XSLT_URI, "use-attribute-sets"),
        _ => None,
    }
}

/// Adds a name, if there is one.
fn push_name<'m>(name: Option<Expanded<'m>>, out: &mut Vec<Expanded<'m>>) -> Result<(), AllocError>
    ensures { OnOk result (map name_data out.new.items
        ≡ map name_data out.old.items ++ listed (option_map name_data name.entry)) }
{
    match name {
        Some(name) => {
            out.push(name)?;
            Ok(())
        }
        None => Ok(()),
    }
}

/// The expanded name that a name represents in a scope: without a prefix it is in no namespace
/// (XSLT 1.0, 2.4). None where the text is no name, or its prefix is not bound.
fn expand_name<'a>(scope: &'a Scope, name: &'a str) -> Option<Expanded<'a>>
    ensures { option_map name_data result ≡ expanded scope.now.pairs.items name.now }
{
    let (prefix, local) = split_qname(name)?;
    if prefix.is_empty() {
        return Some(("", local));
    }
    let uri = scope.uri_in(prefix)?;
    Some((uri, local))
}

/// Adds the names that a list of names has in a scope.
fn push_names<'m>(
    scope: &'m Scope,
    value: &'m str,
    out: &mut Vec<Expanded<'m>>,
) -> Result<(), AllocError>
    ensures { OnOk result (map name_data out.new.items
        ≡ map name_data out.old.items ++ names_in scope.now.pairs.items value.now) }
{
    let mut rest = value;
    while let Some((word, behind)) = first_word(rest) {
        push_name(expand_name(scope, word), out)?;
        rest = behind;
    }
    Ok(())
}

/// Adds the sets that a node names.
fn push_named_sets<'m>(
    tree: &'m Tree,
    walked: &'m Walked,
    n: Node,
    out: &mut Vec<Expanded<'m>>,
) -> Result<(), AllocError>
    requires inside { n < length tree.now }
    requires walked { IsWalked tree.now walked.now }
    ensures { OnOk result (map name_data out.new.items
        ≡ map name_data out.old.items ++ named_sets tree.now n) }
{
    match sets_value(tree, n) {
        Some(value) => push_names(walked.scopes.get(tree, n), value, out),
        None => Ok(()),
    }
}

/// Whether a node is looked at.
fn is_seen(tree: &Tree, walked: &Walked, n: Node) -> bool
    requires inside { n < length tree.now }
    requires walked { IsWalked tree.now walked.now }
    ensures { result ≡ is_seen tree.now n }
{
    standing_in(&walked.standings, tree, n).is_seen
}

/// Adds the sets that a node names, if it is looked at.
fn push_seen_sets<'m>(
    tree: &'m Tree,
    walked: &'m Walked,
    n: Node,
    out: &mut Vec<Expanded<'m>>,
) -> Result<(), AllocError>
    requires inside { n < length tree.now }
    requires walked { IsWalked tree.now walked.now }
    ensures { OnOk result (map name_data out.new.items
        ≡ map name_data out.old.items ++ seen_sets tree.now n) }
{
    if is_seen(tree, walked, n) {
        return push_named_sets(tree, walked, n, out);
    }
    Ok(())
}

/// Adds the sets that an element and those inside it name, as far as they are looked at.
fn push_sets_within<'m>(
    tree: &'m Tree,
    walked: &'m Walked,
    n: Node,
    out: &mut Vec<Expanded<'m>>,
) -> Result<(), AllocError>
    requires inside { n < length tree.now }
    requires walked { IsWalked tree.now walked.now }
    ensures { OnOk result (map name_data out.new.items
        ≡ map name_data out.old.items ++ sets_within tree.now n) }
{
    let end = tree.subtree_end(n);
    for place in n.place()..end {
        push_seen_sets(tree, walked, Node::at(place), out)?;
    }
    Ok(())
}

/// Whether an element is an `xsl:attribute`.
fn is_attribute(tag: Tag) -> bool
    ensures { result ≡ is_attribute tag }
{
    matches!(tag, Tag::Attribute)
}

/// Adds the sets that a child of a declaration uses, which is to be an `xsl:attribute`.
fn push_attribute_sets<'m>(
    tree: &'m Tree,
    walked: &'m Walked,
    child: Node,
    out: &mut Vec<Expanded<'m>>,
) -> Result<(), AllocError>
    requires inside { child < length tree.now }
    requires walked { IsWalked tree.now walked.now }
    ensures { OnOk result (map name_data out.new.items
        ≡ map name_data out.old.items ++ attribute_sets tree.now child) }
{
    if is_attribute(tag_of(tree, child)) {
        return push_sets_within(tree, walked, child, out);
    }
    Ok(())
}

/// The sets that a declaration uses itself.
fn own_sets<'m>(
    alloc: Global,
    tree: &'m Tree,
    walked: &'m Walked,
    n: Node,
) -> Result<Vec<Expanded<'m>>, AllocError>
    requires inside { n < length tree.now }
    requires walked { IsWalked tree.now walked.now }
    ensures { IfOk result (λ sets. map name_data sets.items ≡ own_sets tree.now n) }
{
    let mut sets = Vec::new(alloc);
    push_named_sets(tree, walked, n, &mut sets)?;
    for child in tree.children(n) {
        push_attribute_sets(tree, walked, child, &mut sets)?;
    }
    Ok(sets)
}

/// Whether an element declares an attribute set.
fn is_attribute_set(tag: Tag) -> bool
    ensures { result ≡ is_attribute_set tag }
{
    matches!(tag, Tag::AttributeSet)
}

/// Adds the declaration that an element of a module is, where it has a name.
fn push_named<'m>(
    alloc: Global,
    module: &'m Module,
    walked: &'m Walked,
    place: Place,
    name: Option<Expanded<'m>>,
    out: &mut Vec<Declaration<'m>>,
) -> Result<(), AllocError>
    requires inside { place.1 < length module.now.tree }
    requires lines { length module.now.lines.items ≡ length module.now.tree }
    requires walked { IsWalked module.now.tree walked.now }
    ensures { OnOk result (map declared out.new.items ≡ map declared out.old.items
        ++ declared_as module.now.tree (slice_index module.now.lines.items place.1) place
        (option_map name_data name.entry)) }
{
    let Some(name) = name else {
        return Ok(());
    };
    let (number, n) = place;
    let sets = own_sets(alloc, &module.tree, walked, n)?;
    let place = crate::circles::Place {
        module: number,
        line: module.lines[n.place() as usize],
    };
    out.push(Declaration { place, name, sets })?;
    Ok(())
}

/// Adds the declaration that an element of a module is, if it is one and has a name.
fn push_in<'m>(
    alloc: Global,
    module: &'m Module,
    walked: &'m Walked,
    place: Place,
    out: &mut Vec<Declaration<'m>>,
) -> Result<(), AllocError>
    requires inside { place.1 < length module.now.tree }
    requires lines { length module.now.lines.items ≡ length module.now.tree }
    requires walked { IsWalked module.now.tree walked.now }
    ensures { OnOk result (map declared out.new.items ≡ map declared out.old.items
        ++ declaration_from module.now.tree (slice_index module.now.lines.items place.1)
        place) }
{
    let n = place.1;
    if is_attribute_set(tag_of(&module.tree, n)) {
        let name = own_name(&module.tree, n);
        return push_named(alloc, module, walked, place, name, out);
    }
    Ok(())
}

/// Adds the declaration that an element of a stylesheet is, if it is one and has a name.
fn push_declaration<'m>(
    alloc: Global,
    modules: &'m Modules,
    walked: &'m [Walked],
    place: Place,
    out: &mut Vec<Declaration<'m>>,
) -> Result<(), AllocError>
    requires inside { IsIn (modules_data modules.now) place }
    requires lines { HaveLines (modules_data modules.now) }
    requires walked { AreWalked (modules_data modules.now) walked.now }
    ensures { OnOk result (map declared out.new.items ≡ map declared out.old.items
        ++ declaration_at (modules_data modules.now) place) }
{
    let number = place.0;
    let module = &modules.list[number as usize];
    let walked = &walked[number as usize];
    push_in(alloc, module, walked, place, out)
}

/// The declarations of attribute sets that have names.
fn declarations<'m>(
    alloc: Global,
    modules: &'m Modules,
    places: &[Place],
    walked: &'m [Walked],
) -> Result<Vec<Declaration<'m>>, AllocError>
    requires inside { All (IsIn (modules_data modules.now)) places.now }
    requires lines { HaveLines (modules_data modules.now) }
    requires walked { AreWalked (modules_data modules.now) walked.now }
    ensures { IfOk result (λ found. map declared found.items
        ≡ declarations_of (modules_data modules.now) places.now) }
{
    let mut found = Vec::new(alloc);
    for place in places {
        push_declaration(alloc, modules, walked, *place, &mut found)?;
    }
    Ok(found)
}

/// The least fault of a declaration of an attribute set whose own sets lead back to its name, by
/// the declarations of the stylesheet and what the walk over each module left.
pub(crate) fn first_circle<'m>(
    alloc: Global,
    modules: &'m Modules,
    places: &[Place],
    walked: &'m [Walked],
) -> Result<Option<StaticFault>, AllocError>
    requires all { places.now ≡ declarations (modules_data modules.now) }
    requires inside { All (IsIn (modules_data modules.now)) places.now }
    requires lines { HaveLines (modules_data modules.now) }
    requires walked { AreWalked (modules_data modules.now) walked.now }
    ensures { IfOk result (λ fault. IsLeastOf
        (λ f. IsStaticFault (modules_data modules.now) f × (f.number ≡ 44)) fault) }
{
    let declarations = declarations(alloc, modules, places, walked)?;
    let place = crate::circles::first_circle(alloc, &declarations)?;
    Ok(circle_at(place))
}

/// The fault of a circular declaration at a place, if there is one.
fn circle_at(place: Option<crate::circles::Place>) -> Option<StaticFault>
    ensures { result ≡ circle_at place }
{
    match place {
        Some(place) => Some(StaticFault {
            module: place.module,
            line: place.line,
            number: CIRCULAR_SET,
        }),
        None => None,
    }
}

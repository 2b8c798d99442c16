//! Places of a stylesheet, and what stands there.

ghost use Rattle.std.specs.Prelude.{◌≡◌, ◌<◌, length, option_map, IfOk};
ghost use Rattle.xs_structure.specs.Order.{is_simplified, is_template_place};
ghost use Rattle.xs_structure.specs.Parts.{imports_from_at, is_in_body, name_at, pairs_at, tag_at};
ghost use Rattle.xs_structure.specs.Parts.{said_at, site_at, text_at, value_at};
ghost use Rattle.xs_structure.specs.Places.{HaveLines, IsIn};
ghost use Rattle.xs_elements.specs.Nodes.{name_data};
ghost use Rattle.xs_elements.specs.WhiteSpace.{preserves};
ghost use Rattle.xs_modules.specs.Results.{modules_data};
ghost use Rattle.xs_structure.specs.Modules.{precedence_at, records_at};

use std::alloc::{AllocError, Global};
use xs_elements::kept::is_kept;
use xs_elements::scope::{Expanded, own_name, scope_at, value_of};
use xs_elements::tags::{Tag, is_document_element, tag_of};
use xs_modules::Modules;
use xs_text::TextBuf;
use xs_trace::item::Site;
use xs_tree::{Kind, Node, Tree};
use xs_xpath::scope::Scope;

/// A node of a stylesheet: the number of its module, and its place there.
pub type Place = (u32, Node);

/// The nodes of a module.
pub fn tree_of(modules: &Modules, number: u32) -> &Tree
    requires { «number» < length (modules_data modules.now) }
    ensures { result.now ≡ records_at (modules_data modules.now) «number» }
{
    &modules.list[number as usize].tree
}

/// Where a node stands: the number of its module, and its line there.
pub fn site_at(modules: &Modules, number: u32, n: Node) -> Site
    requires at { IsIn (modules_data modules.now) («number», n) }
    requires lines { HaveLines (modules_data modules.now) }
    ensures { result ≡ site_at (modules_data modules.now) («number», n) }
{
    let module = &modules.list[number as usize];
    Site {
        module: number,
        line: module.lines[n.place() as usize],
    }
}

/// The import precedence of a module's stylesheet (XSLT 1.0, 2.6.2).
pub fn precedence_at(modules: &Modules, number: u32) -> u32
    ensures { result ≡ precedence_at (modules_data modules.now) «number» }
{
    match modules.list.get(number as usize) {
        Some(module) => module.precedence,
        None => 0,
    }
}

/// The first of the precedences that a module's stylesheet imports.
pub fn imports_from_at(modules: &Modules, number: u32) -> u32
    ensures { result ≡ imports_from_at (modules_data modules.now) «number» }
{
    match modules.list.get(number as usize) {
        Some(module) => module.imports_from,
        None => 0,
    }
}

/// What a node is, by its name.
pub fn tag_at(modules: &Modules, number: u32, n: Node) -> Tag
    requires at { IsIn (modules_data modules.now) («number», n) }
    ensures { result ≡ tag_at (modules_data modules.now) («number», n) }
{
    tag_of(tree_of(modules, number), n)
}

/// Whether a node is an element that is no XSLT and represents a whole module (2.3).
fn is_simplified(modules: &Modules, number: u32, n: Node) -> bool
    requires at { IsIn (modules_data modules.now) («number», n) }
    ensures { result ≡ is_simplified (records_at (modules_data modules.now) «number») n }
{
    if !matches!(tag_at(modules, number, n), Tag::Other) {
        return false;
    }
    is_document_element(tree_of(modules, number), n)
}

/// Whether a node represents a template: an `xsl:template`, or a whole module.
pub fn is_template(modules: &Modules, number: u32, n: Node) -> bool
    requires at { IsIn (modules_data modules.now) («number», n) }
    ensures { result ≡ is_template_place (modules_data modules.now) («number», n) }
{
    if matches!(tag_at(modules, number, n), Tag::Template) {
        return true;
    }
    is_simplified(modules, number, n)
}

/// The value of an attribute in no namespace.
pub fn value_at<'m>(modules: &'m Modules, number: u32, n: Node, local: &str) -> Option<&'m str>
    requires at { IsIn (modules_data modules.now) («number», n) }
    ensures { option_map (λ value. value.now) result
        ≡ value_at (modules_data modules.now) («number», n) local.now }
{
    value_of(tree_of(modules, number), n, "", local)
}

/// The value of an attribute in no namespace, nothing where it is missing.
pub fn said_at<'m>(modules: &'m Modules, number: u32, n: Node, local: &str) -> &'m str
    requires at { IsIn (modules_data modules.now) («number», n) }
    ensures { result.now ≡ said_at (modules_data modules.now) («number», n) local.now }
{
    match value_at(modules, number, n, local) {
        Some(value) => value,
        None => "",
    }
}

/// The expanded name that the attribute `name` says.
pub fn name_at(modules: &Modules, number: u32, n: Node) -> Option<Expanded<'_>>
    requires at { IsIn (modules_data modules.now) («number», n) }
    ensures { option_map name_data result ≡ name_at (modules_data modules.now) («number», n) }
{
    own_name(tree_of(modules, number), n)
}

/// The namespaces that are in scope at an element.
pub fn pairs_at(alloc: Global, modules: &Modules, number: u32, n: Node) -> Result<Scope, AllocError>
    requires at { IsIn (modules_data modules.now) («number», n) }
    ensures { IfOk result (λ scope. scope.pairs.items
        ≡ pairs_at (modules_data modules.now) («number», n)) }
{
    scope_at(alloc, tree_of(modules, number), n)
}

/// Whether a child of an element is a part of its body (2.1): an element that is no parameter of a
/// template and no sort key, or a text that is kept.
pub fn is_in_body(
    modules: &Modules,
    number: u32,
    inside: Node,
    child: Node,
    preserved: bool,
) -> bool
    requires at { IsIn (modules_data modules.now) («number», inside) }
    requires child { IsIn (modules_data modules.now) («number», child) }
    requires space { preserved
        ≡ preserves (records_at (modules_data modules.now) «number») inside }
    ensures { result ≡ is_in_body (modules_data modules.now) («number», inside) («number», child) }
{
    let tree = tree_of(modules, number);
    match tree.kind(child) {
        Kind::Element => !matches!(tag_at(modules, number, child), Tag::Param | Tag::Sort),
        Kind::Text => is_kept(tree, child, tag_at(modules, number, inside), preserved),
        _ => false,
    }
}

/// The text of a text node, of an element all text in it.
pub fn text_at(
    alloc: Global,
    modules: &Modules,
    number: u32,
    n: Node,
) -> Result<TextBuf, AllocError>
    requires at { IsIn (modules_data modules.now) («number», n) }
    ensures { IfOk result (λ text. text ≡ text_at (modules_data modules.now) («number», n)) }
{
    let mut bytes = Vec::new(alloc);
    tree_of(modules, number).string_value_into(n, &mut bytes)?;
    match String::from_utf8(bytes) {
        Ok(text) => TextBuf::from_string(text),
        Err(_) => unreachable!(),
    }
}

//! Namespace aliases (XSLT 1.0, 7.1.1).

ghost use Rattle.std.specs.Prelude.{◌≡◌, ℕ, List, [], ◌∷◌, ◌++◌, filter, IfOk, OnOk, if◌then◌else◌};
ghost use Rattle.std.specs.Prelude.{option_map};
ghost use Rattle.std.specs.List.{All};
ghost use Rattle.std.specs.Option.{unwrap_or};
ghost use Rattle.xs_compile.specs.Counted.{counted};
ghost use Rattle.xs_compile.specs.Aliases.{alias_at, aliases, is_alias, prefix_uri};
ghost use Rattle.xs_structure.specs.Order.{declarations};
ghost use Rattle.xs_structure.specs.Parts.{pairs_at, tag_at, said_at};
ghost use Rattle.xs_compile.specs.steps.Counting.{counts_for};
ghost use Rattle.xs_compile.specs.steps.Aliases.{has_alias, is_alias_for};
ghost use Rattle.xs_compile.specs.Tables.{place_in};
ghost use Rattle.xs_structure.specs.Places.{IsIn};
ghost use Rattle.xs_modules.specs.Results.{modules_data};

use crate::counted::Counted;
use std::alloc::{AllocError, Global};
use xs_elements::scope::uri_of;
use xs_elements::tags::Tag;
use xs_modules::Modules;
use xs_sheet::declarations::Alias;
use xs_structure::places::{Place, said_at, tag_at, tree_of};
use xs_text::TextBuf;
use xs_tree::{InputHashes, Node};

/// A URI, empty where there is none.
fn or_none(uri: Option<&str>) -> &str
    ensures { result.now ≡ unwrap_or (option_map (λ u. u.now) uri.entry) [] }
{
    match uri {
        Some(uri) => uri,
        None => "",
    }
}

/// The URI that the prefix in an attribute is bound to; `#default` is the default namespace, or
/// none.
#[tactic(auto, using(xs_xpath::proofs::RunLemmas::nil_by_length))]
fn prefix_uri<'m>(modules: &'m Modules, number: u32, n: Node, local: &str) -> &'m str
    requires at { IsIn (modules_data modules.now) («number», n) }
    ensures { result.now ≡ prefix_uri (pairs_at (modules_data modules.now) («number», n))
        (said_at (modules_data modules.now) («number», n) local.now) }
{
    let prefix = said_at(modules, number, n, local);
    let tree = tree_of(modules, number);
    if prefix == "#default" {
        return or_none(uri_of(tree, n, ""));
    }
    if prefix.is_empty() {
        return "";
    }
    or_none(uri_of(tree, n, prefix))
}

/// The URI that an alias is for.
fn from_uri(modules: &Modules, number: u32, n: Node) -> &str
    requires at { IsIn (modules_data modules.now) («number», n) }
    ensures { result.now ≡ (alias_at (modules_data modules.now) («number», n)).from_uri }
{
    prefix_uri(modules, number, n, "stylesheet-prefix")
}

/// The alias that an element declares.
fn alias_at(alloc: Global, modules: &Modules, number: u32, n: Node) -> Result<Alias, AllocError>
    requires at { IsIn (modules_data modules.now) («number», n) }
    ensures { IfOk result (λ alias. alias ≡ alias_at (modules_data modules.now) («number», n)) }
{
    Ok(Alias {
        from_uri: TextBuf::of(alloc, from_uri(modules, number, n))?,
        to_uri: TextBuf::of(alloc, prefix_uri(modules, number, n, "result-prefix"))?,
    })
}

/// Whether an element declares an alias.
fn is_alias(modules: &Modules, number: u32, n: Node) -> bool
    requires at { IsIn (modules_data modules.now) («number», n) }
    ensures { result ≡ is_alias (tag_at (modules_data modules.now) («number», n)) }
{
    matches!(tag_at(modules, number, n), Tag::NamespaceAlias)
}

/// Notes a declaration, if it is that of an alias: its namespace represents its name.
fn note_alias<'m>(
    modules: &'m Modules,
    number: u32,
    n: Node,
    found: &mut Counted<'m>,
) -> Result<(), AllocError>
    requires at { IsIn (modules_data modules.now) («number», n) }
    ensures { OnOk result ((uri : List ℕ) → place_in found.new uri []
        ≡ (if is_alias_for (modules_data modules.now) uri («number», n)
        then counts_for (modules_data modules.now) (place_in found.old uri []) («number», n)
        else place_in found.old uri [])) }
{
    if !is_alias(modules, number, n) {
        return Ok(());
    }
    found.declare(modules, (from_uri(modules, number, n), ""), number, n)
}

/// The declarations of aliases that count, each for another namespace, which represents its name.
fn counted_aliases<'m>(
    alloc: Global,
    hashes: InputHashes,
    modules: &'m Modules,
    places: &[Place],
) -> Result<Counted<'m>, AllocError>
    requires inside { All (IsIn (modules_data modules.now)) places.now }
    ensures { IfOk result (λ c. (uri : List ℕ) → place_in c uri []
        ≡ counted (modules_data modules.now)
        (filter (is_alias_for (modules_data modules.now) uri) places.now)) }
{
    let mut found = Counted::new(alloc, hashes);
    for place in places {
        note_alias(modules, place.0, place.1, &mut found)?;
    }
    Ok(found)
}

/// Whether an element declares an alias that counts.
fn is_counted_alias(modules: &Modules, found: &Counted<'_>, number: u32, n: Node) -> bool
    requires at { IsIn (modules_data modules.now) («number», n) }
    requires found { (uri : List ℕ) → place_in found.now uri [] ≡ counted
        (modules_data modules.now) (filter (is_alias_for (modules_data modules.now) uri)
        (declarations (modules_data modules.now))) }
    ensures { result ≡ has_alias (modules_data modules.now) («number», n) }
{
    if !is_alias(modules, number, n) {
        return false;
    }
    found.is_counted(&(from_uri(modules, number, n), ""), number, n)
}

/// Adds the alias that an element declares, if it is one that counts.
fn push_alias(
    alloc: Global,
    modules: &Modules,
    found: &Counted<'_>,
    number: u32,
    n: Node,
    aliases: &mut Vec<Alias>,
) -> Result<(), AllocError>
    requires at { IsIn (modules_data modules.now) («number», n) }
    requires found { (uri : List ℕ) → place_in found.now uri [] ≡ counted
        (modules_data modules.now) (filter (is_alias_for (modules_data modules.now) uri)
        (declarations (modules_data modules.now))) }
    ensures { OnOk result (aliases.new.items ≡ (if has_alias (modules_data modules.now)
        («number», n) then aliases.old.items ++ alias_at (modules_data modules.now)
        («number», n) ∷ [] else aliases.old.items)) }
{
    if is_counted_alias(modules, found, number, n) {
        let alias = alias_at(alloc, modules, number, n)?;
        aliases.push(alias)?;
    }
    Ok(())
}

/// The aliases that count. A table has these hashes.
pub(crate) fn aliases(
    alloc: Global,
    hashes: InputHashes,
    modules: &Modules,
    places: &[Place],
) -> Result<Vec<Alias>, AllocError>
    requires inside { All (IsIn (modules_data modules.now)) places.now }
    requires all { places.now ≡ declarations (modules_data modules.now) }
    ensures { IfOk result (λ found. found.items ≡ aliases (modules_data modules.now)) }
{
    let found = counted_aliases(alloc, hashes, modules, places)?;
    let mut aliases = Vec::new(alloc);
    for place in places {
        push_alias(alloc, modules, &found, place.0, place.1, &mut aliases)?;
    }
    Ok(aliases)
}

//! The declarations of attribute sets by name.

ghost use Rattle.std.specs.Prelude.{◌≡◌, ◌++◌, ◌∷◌, [], false, filter, map, true, IfOk, OnOk};
ghost use Rattle.std.specs.Prelude.{if◌then◌else◌, option_copied};
ghost use Rattle.indexmap.specs.IndexMap.{get_by};
ghost use Rattle.xs_trace.specs.Label.{Label};
ghost use Rattle.xs_attribute_sets.specs.Declarations.{has_name};
ghost use Rattle.xs_attribute_sets.specs.Indexed.{grouped, is_of};

use crate::flags::{FEW_NAMES, is_of};
use indexmap::IndexMap;
use std::alloc::{AllocError, Global};
use xs_sheet::declarations::AttrSet;
use xs_trace::event::Label;

/// A namespace URI and a local part (Namespaces in XML 1.0, 2.1).
pub(crate) type Expanded<'a> = (&'a str, &'a str);

/// The declarations of each name.
pub(crate) type Lists<'a> = IndexMap<Expanded<'a>, Vec<&'a AttrSet>>;

/// Declarations by name, in their order.
pub(crate) fn lists_of<'a>(alloc: Global, sets: &[&'a AttrSet]) -> Result<Lists<'a>, AllocError>
    ensures { IfOk result (λ lists. (name : Label)
        → grouped lists name ≡ filter (has_name name) (map (λ s. s.now) sets.now)) }
{
    let mut lists = IndexMap::new(alloc);
    for set in sets {
        add(alloc, &mut lists, set)?;
    }
    Ok(lists)
}

/// The declarations of a name, if there are any.
pub(crate) fn list_of<'l, 'a>(lists: &'l Lists<'a>, name: &'l Label) -> Option<&'l Vec<&'a AttrSet>>
    ensures { option_copied result ≡ get_by (is_of name.now) lists.now }
{
    if lists.len() > FEW_NAMES {
        return lists.get(&(name.uri(), name.local()));
    }
    list_among_few(lists, name)
}

/// The same, by going over the names.
fn list_among_few<'l, 'a>(lists: &'l Lists<'a>, name: &Label) -> Option<&'l Vec<&'a AttrSet>>
    ensures { option_copied result ≡ get_by (is_of name.now) lists.now }
{
    let mut left = lists.as_slice();
    while let Some(((other, list), others)) = left.split_first() {
        if is_of(name, other) {
            return Some(list);
        }
        left = others;
    }
    None
}

/// Adds a declaration to those of its name.
fn add<'a>(alloc: Global, lists: &mut Lists<'a>, set: &'a AttrSet) -> Result<(), AllocError>
    ensures { OnOk result ((name : Label) → grouped lists.new name ≡ grouped lists.old name
        ++ filter (has_name name) (set.entry.now ∷ [])) }
{
    let key = (set.name.uri(), set.name.local());
    let mut list = take_list(alloc, lists, key);
    list.push(set)?;
    put_list(lists, key, list)
}

/// Takes the declarations of a name away.
fn take_list<'a>(alloc: Global, lists: &mut Lists<'a>, key: Expanded<'a>) -> Vec<&'a AttrSet>
    ensures taken { (name : Label) → is_of name key.entry ≡ true
        → map (λ s. s.now) result.items ≡ grouped lists.old name }
    ensures others { (name : Label) → is_of name key.entry ≡ false
        → grouped lists.new name ≡ grouped lists.old name }
{
    match lists.swap_remove(&key) {
        Some(list) => list,
        None => Vec::new(alloc),
    }
}

/// Puts the declarations of a name.
fn put_list<'a>(
    lists: &mut Lists<'a>,
    key: Expanded<'a>,
    list: Vec<&'a AttrSet>,
) -> Result<(), AllocError>
    ensures { OnOk result ((name : Label) → grouped lists.new name
        ≡ (if is_of name key.entry then map (λ s. s.now) list.entry.items
        else grouped lists.old name)) }
{
    lists.insert(key, list)?;
    Ok(())
}

//! Which attribute sets reach an attribute.

use crate::flags::{FlaggedSets, has_none};
use crate::lists::{Expanded, Lists};
use indexmap::{IndexMap, IndexSet};
use std::alloc::{AllocError, Global};
use xs_sheet::declarations::AttrSet;

/// Of each set, the names of those that use it.
type Users<'a> = IndexMap<Expanded<'a>, Vec<Expanded<'a>>>;

/// Flags the sets that have an attribute, then those that use them, and so on, each set once. The
/// contract does not say which: `SetIndex` looks whether the others are idle.
pub(crate) fn flags_of<'a>(
    alloc: Global,
    sets: &'a [AttrSet],
) -> Result<FlaggedSets<'a>, AllocError> {
    let users = users_of(alloc, sets)?;
    let mut names = IndexSet::new(alloc);
    let mut waiting = Vec::new(alloc);
    for set in sets {
        if !has_none(set) {
            flag((set.name.uri(), set.name.local()), &mut names, &mut waiting)?;
        }
    }
    for _turn in 0..u64::MAX {
        let Some(name) = waiting.pop() else {
            break;
        };
        if let Some(list) = users.get(&name) {
            for user in list.as_slice() {
                flag(*user, &mut names, &mut waiting)?;
            }
        }
    }
    Ok(FlaggedSets { names, all: false })
}

/// Flags a set; where it was not flagged, those that use it are to be flagged.
fn flag<'a>(
    name: Expanded<'a>,
    names: &mut IndexSet<Expanded<'a>>,
    waiting: &mut Vec<Expanded<'a>>,
) -> Result<(), AllocError> {
    if names.insert(name)? {
        waiting.push(name)?;
    }
    Ok(())
}

/// Of each set that is used, those that use it.
fn users_of<'a>(alloc: Global, sets: &'a [AttrSet]) -> Result<Users<'a>, AllocError> {
    let mut users = IndexMap::new(alloc);
    for set in sets {
        for name in set.sets.as_slice() {
            let user = (set.name.uri(), set.name.local());
            add_user(alloc, &mut users, (name.uri(), name.local()), user)?;
        }
    }
    Ok(users)
}

/// Adds a set to those that use another.
fn add_user<'a>(
    alloc: Global,
    users: &mut Users<'a>,
    name: Expanded<'a>,
    user: Expanded<'a>,
) -> Result<(), AllocError> {
    let mut list = taken(alloc, users, name);
    list.push(user)?;
    users.insert(name, list)?;
    Ok(())
}

/// Takes those that use a set.
fn taken<'a>(alloc: Global, users: &mut Users<'a>, name: Expanded<'a>) -> Vec<Expanded<'a>> {
    match users.swap_remove(&name) {
        Some(list) => list,
        None => Vec::new(alloc),
    }
}

//! The attribute sets that reach an attribute, by name.

ghost use Rattle.std.specs.Prelude.{◌≡◌, true, IfOk, map};
ghost use Rattle.xs_attribute_sets.specs.Indexed.{IsSetIndex, declarations_in};
ghost use Rattle.xs_attribute_sets.specs.steps.FlaggedSets.{is_closed};

use crate::flags::FlaggedSets;
use crate::lists::{Lists, list_of, lists_of};
use crate::order::by_precedence;
use crate::reach::flags_of;
use indexmap::IndexSet;
use std::alloc::{AllocError, Global};
use xs_sheet::declarations::AttrSet;
use xs_trace::event::Label;

/// The declarations of each attribute set, in the order in which they count (XSLT 1.0, 7.1.4),
/// except for sets that reach no attribute: sets take no ticks, so that such ones could take time
/// that no budget ends.
#[derive(Drop)]
pub struct SetIndex<'a> {
    /// The declarations of each name.
    lists: Lists<'a>,
    /// The sets that reach an attribute.
    flags: FlaggedSets<'a>,
}

impl<'a> SetIndex<'a> {
    /// Those of a stylesheet, in time linear in it for each of its modules.
    pub fn new(alloc: Global, sets: &'a [AttrSet]) -> Result<SetIndex<'a>, AllocError>
        ensures index { IfOk result (IsSetIndex sets.entry.now) }
    {
        let all = by_precedence(alloc, sets)?;
        let lists = lists_of(alloc, all.as_slice())?;
        let flags = checked_flags(alloc, sets)?;
        Ok(SetIndex { lists, flags })
    }

    /// The declarations of a name; none where it reaches no attribute.
    pub fn declarations(&'a self, name: &'a Label) -> &'a [&'a AttrSet]
        ensures declarations { map (λ s. s.now) result.now
            ≡ declarations_in self.now name.entry.now }
    {
        if !self.flags.has(name) {
            return &[];
        }
        match list_of(&self.lists, name) {
            None => &[],
            Some(list) => list.as_slice(),
        }
    }
}

/// The sets that reach an attribute are flagged; all are where another one is not idle, which can't
/// come.
fn checked_flags<'a>(alloc: Global, sets: &'a [AttrSet]) -> Result<FlaggedSets<'a>, AllocError>
    ensures { IfOk result (λ flags. is_closed flags sets.entry.now ≡ true) }
{
    let flags = flags_of(alloc, sets)?;
    if flags.is_closed(sets) {
        return Ok(flags);
    }
    Ok(FlaggedSets {
        names: IndexSet::new(alloc),
        all: true,
    })
}

//! The attribute sets that reach an attribute, by themselves or by the sets that they use.

ghost use Rattle.std.specs.Prelude.{◌≡◌, not, IfOk};
ghost use Rattle.std.specs.List.{list_any};
ghost use Rattle.indexmap.specs.IndexSet.{contains_by};
ghost use Rattle.xs_attribute_sets.specs.Indexed.{is_flagged, is_of};
ghost use Rattle.xs_attribute_sets.specs.steps.FlaggedSets.{are_none, is_closed, is_closed_at};
ghost use Rattle.xs_attribute_sets.specs.steps.FlaggedSets.{is_idle};

use crate::lists::Expanded;
use indexmap::IndexSet;
use xs_sheet::declarations::AttrSet;
use xs_trace::event::Label;

/// The most names that are gone over one after another, which takes less time than a hash.
pub(crate) const FEW_NAMES: usize = 8;

/// The names of the sets that are flagged.
#[derive(Drop)]
pub struct FlaggedSets<'a> {
    /// The names.
    pub(crate) names: IndexSet<Expanded<'a>>,
    /// Whether all sets are flagged besides.
    pub(crate) all: bool,
}

impl<'a> FlaggedSets<'a> {
    /// Whether a set is flagged.
    pub(crate) fn has(&self, name: &Label) -> bool
        ensures { result ≡ is_flagged self.now name.now }
    {
        self.all || self.has_name(name)
    }

    /// Whether a name is one of those that are flagged.
    fn has_name(&self, name: &Label) -> bool
        ensures { result ≡ contains_by (is_of name.now) self.now.names }
    {
        if self.names.len() > FEW_NAMES {
            return self.names.contains(&(name.uri(), name.local()));
        }
        is_among(name, self.names.as_slice())
    }

    /// Whether all declarations of the sets that are not flagged are idle.
    pub(crate) fn is_closed(&self, sets: &[AttrSet]) -> bool
        ensures { result ≡ is_closed self.now sets.now }
    {
        let mut left = sets;
        while let Some((set, others)) = left.split_first() {
            if !self.is_closed_at(set) {
                return false;
            }
            left = others;
        }
        true
    }

    /// Whether a declaration is of a set that is flagged, or idle.
    fn is_closed_at(&self, set: &AttrSet) -> bool
        ensures { result ≡ is_closed_at self.now set.now }
    {
        self.has(&set.name) || self.is_idle(set)
    }

    /// Whether a declaration has no attribute, and uses no set that is flagged.
    fn is_idle(&self, set: &AttrSet) -> bool
        ensures { result ≡ is_idle self.now set.now }
    {
        has_none(set) && !self.has_any(set.sets.as_slice())
    }

    /// Whether one of some sets is flagged.
    fn has_any(&self, names: &[Label]) -> bool
        ensures { result ≡ list_any (is_flagged self.now) names.now }
    {
        let mut left = names;
        while let Some((name, others)) = left.split_first() {
            if self.has(name) {
                return true;
            }
            left = others;
        }
        false
    }
}

/// Whether a name is one of these, by going over them.
fn is_among(name: &Label, names: &[Expanded<'_>]) -> bool
    ensures { result ≡ list_any (is_of name.now) names.now }
{
    for other in names {
        if is_of(name, other) {
            return true;
        }
    }
    false
}

/// Whether a name has these two parts.
pub(crate) fn is_of(name: &Label, other: &Expanded<'_>) -> bool
    ensures { result ≡ is_of name.now other.now }
{
    name.uri() == other.0 && name.local() == other.1
}

/// Whether a declaration has no attribute.
pub(crate) fn has_none(set: &AttrSet) -> bool
    ensures { result ≡ are_none set.now.attributes }
{
    match set.attributes.as_slice() {
        [] => true,
        [_, ..] => false,
    }
}

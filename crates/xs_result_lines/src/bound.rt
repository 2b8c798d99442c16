//! Start tags of which each attribute keeps its prefix: their lines are written from the events as
//! they came.
ghost use Rattle.std.specs.Prelude.{◌≡◌, ◌∷◌, ◌++◌, true, IfOk, IfSome, OnOk, length, take};
ghost use Rattle.std.specs.Str.{IsUtf8};
ghost use Rattle.xs_trace.specs.declared.event.Event.TheVariants as event_of;
ghost use Rattle.xs_result_lines.specs.Bindings.{bindings_before, declared, spaces_in};
ghost use Rattle.xs_result_lines.specs.Lines.{bytes_of, lines, open_after, scope_of};
ghost use Rattle.xs_result_lines.specs.steps.Bound.{bound_lines, keep_own};
ghost use Rattle.xs_result_lines.specs.steps.Open.{bindings_of};
ghost use Rattle.xs_result_lines.specs.steps.Pending.{IsAlone, begun, is_simple, lent};

use crate::lent::{append_lent_attributes, is_simple};
use crate::name_lines::{append_declarations, append_start};
use crate::ordered::{binds_own_spaces, new_spaces};
use crate::scope::Declared;
use crate::tag_bindings::TagBindings;
use crate::writer::PyxWriter;
use std::alloc::AllocError;
use xs_trace::event::{Event, Label};

impl PyxWriter {
    /// Writes the start tag of an element with this name, which is lent as a whole and as what was
    /// added to its start.
    pub(crate) fn declaring_tag(
        &mut self,
        out: &mut Vec<u8>,
        name: &Label,
        added: &[&Event],
        tag: &[&Event],
    ) -> Result<(), AllocError>
        requires alone { IsAlone (begun tag.now) }
        requires whole { lent tag.now ≡ event_of.Start name.now ∷ lent added.now }
        ensures written { OnOk result
            (out.new.items ≡ out.old.items ++ bytes_of (lines self.old (begun tag.now).tag)) }
        ensures opened { OnOk result (self.new ≡ open_after self.old (begun tag.now).tag) }
        ensures kept { take (length out.old.items) out.new.items ≡ out.old.items }
        ensures utf8 { IsUtf8 out.old.items → IsUtf8 out.new.items }
    {
        if !is_simple(added) {
            return self.built_tag(out, tag);
        }
        match self.ordered(name, added)? {
            Some(declared) => self.bound_tag(out, name, added, declared),
            None => self.unordered_tag(out, name, added, tag),
        }
    }

    /// What a start tag declares, where it binds what its namespace nodes say, and each attribute
    /// keeps its prefix; else none.
    fn ordered(&self, name: &Label, added: &[&Event]) -> Result<Option<Vec<Declared>>, AllocError>
        ensures declares { IfOk result (λ found. IfSome found (λ all. bindings_of all.items
            ≡ declared (scope_of self.now) (bindings_before name.now (lent added.now)))) }
        ensures own { IfOk result (λ found. IfSome found (λ all.
            keep_own (bindings_before name.now (lent added.now)) (lent added.now) ≡ true)) }
    {
        if !binds_own_spaces(name, added) {
            return Ok(None);
        }
        Ok(Some(self.new_spaces(added)?))
    }

    /// The bindings of the namespace nodes of a start tag that are new here, in their order.
    fn new_spaces(&self, added: &[&Event]) -> Result<Vec<Declared>, AllocError>
        ensures { IfOk result (λ all. bindings_of all.items
            ≡ declared (scope_of self.now) (spaces_in (lent added.now))) }
    {
        match &self.scope {
            Some(scope) => new_spaces(scope, self.alloc, added),
            None => Err(AllocError),
        }
    }

    /// The same as `declaring_tag`, where no two attributes have one name.
    #[inline(never)]
    fn unordered_tag(
        &mut self,
        out: &mut Vec<u8>,
        name: &Label,
        added: &[&Event],
        tag: &[&Event],
    ) -> Result<(), AllocError>
        requires alone { IsAlone (begun tag.now) }
        requires whole { lent tag.now ≡ event_of.Start name.now ∷ lent added.now }
        requires simple { is_simple (lent added.now) ≡ true }
        ensures written { OnOk result
            (out.new.items ≡ out.old.items ++ bytes_of (lines self.old (begun tag.now).tag)) }
        ensures opened { OnOk result (self.new ≡ open_after self.old (begun tag.now).tag) }
        ensures kept { take (length out.old.items) out.new.items ≡ out.old.items }
        ensures utf8 { IsUtf8 out.old.items → IsUtf8 out.new.items }
    {
        let bindings = TagBindings::lent(self.alloc, name, added)?;
        if !bindings.keep_own(added)? {
            return self.built_tag(out, tag);
        }
        let declared = self.declared(&bindings)?;
        self.bound_tag(out, name, added, declared)
    }

    /// Writes the start tag of an element with these declarations, where each attribute keeps its
    /// prefix, and no two have one name. The element is then open.
    pub(crate) fn bound_tag(
        &mut self,
        out: &mut Vec<u8>,
        name: &Label,
        added: &[&Event],
        declarations: Vec<Declared>,
    ) -> Result<(), AllocError>
        requires declares { bindings_of declarations.items
            ≡ declared (scope_of self.old) (bindings_before name.now (lent added.now)) }
        requires own { keep_own (bindings_before name.now (lent added.now)) (lent added.now)
            ≡ true }
        requires simple { is_simple (lent added.now) ≡ true }
        ensures written { OnOk result (out.new.items ≡ out.old.items
            ++ bytes_of (lines self.old (event_of.Start name.now ∷ lent added.now))) }
        ensures opened { OnOk result
            (self.new ≡ open_after self.old (event_of.Start name.now ∷ lent added.now)) }
        ensures kept { take (length out.old.items) out.new.items ≡ out.old.items }
        ensures utf8 { IsUtf8 out.old.items → IsUtf8 out.new.items }
    {
        append_bound_tag(out, name, &declarations, added)?;
        self.enter(name, declarations)
    }
}

/// Appends the lines of such a start tag with these declarations. After a refusal a part of them.
#[tactic(auto, unfolding(crate::specs::Lines::bytes_of))]
fn append_bound_tag(
    out: &mut Vec<u8>,
    name: &Label,
    declared: &[Declared],
    added: &[&Event],
) -> Result<(), AllocError>
    ensures written { OnOk result (out.new.items ≡ out.old.items
        ++ bytes_of (bound_lines (bindings_of declared.now) name.now (lent added.now))) }
    ensures kept { take (length out.old.items) out.new.items ≡ out.old.items }
    ensures utf8 { IsUtf8 out.old.items → IsUtf8 out.new.items }
{
    append_start(out, name)?;
    append_declarations(out, declared)?;
    append_lent_attributes(out, added)
}

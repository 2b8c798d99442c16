//! The faults of one element: of its name and place as a module's element, of its attributes and
//! of its content.

ghost use Rattle.std.specs.Prelude.{◌≡◌, ℕ, ◌<◌, length, if◌then◌else◌, Some, None, IfOk, List, []};
ghost use Rattle.std.specs.Prelude.{◌∷◌, ◌++◌, ◌||◌, get_or, map};
ghost use Rattle.std.specs.List.{list_any};
ghost use Rattle.xs_static.specs.Faults.{is_missing, lacks_both, lacks_some};
ghost use Rattle.xs_static.specs.Placing.{content_before, has_misplaced_text, lacks_branch};
ghost use Rattle.xs_structure.specs.Parts.{is_content};
ghost use Rattle.xs_elements.specs.WhiteSpace.{is_kept_text};
ghost use Rattle.xs_elements.specs.Contents.{before_of};
ghost use Rattle.xs_static.specs.steps.Least.{fault_where, least_of};
ghost use Rattle.xs_static.specs.steps.Misplaced.{is_refused, misplaced_fault, misplaced_faults};
ghost use Rattle.xs_static.specs.steps.Misplaced.{refused, tags_among};
ghost use Rattle.xs_elements.specs.Nodes.{has, scope_at};
ghost use Rattle.xs_elements.specs.Reading.{content_at, form_of, has_read_attributes, has_version};
ghost use Rattle.xs_static.specs.steps.Elements.{IsAt, attribute_least, attributes_least, known_by};
ghost use Rattle.xs_static.specs.steps.Elements.{own_least, records_of, value_least};
ghost use Rattle.xs_elements.specs.Attributes.{allowed_data, attributes_of};
ghost use Rattle.xs_elements.specs.Tags.{tag_of};
ghost use Rattle.xs_tree.specs.Record.{at};

use crate::expressions::{Found, found_in_value};
use crate::fault::Least;
use crate::numbers::{
    BAD_ATTRIBUTE, BAD_ROOT, FORBIDDEN, MISPLACED, MISSING_ATTRIBUTE, UNBOUND_PREFIX,
    UNKNOWN_ATTRIBUTE, UNKNOWN_VARIABLE, UNSUPPORTED, lesser, where_holds,
};
use crate::variables::Visible;
use std::alloc::{AllocError, Global};
use xs_elements::attributes::{Attribute, Need, attributes, form_named};
use xs_elements::contents::{Before, Content, content_of, holds_text, may_stand};
use xs_elements::forms::Form;
use xs_elements::kept::is_kept;
use xs_elements::reading::Reading;
use xs_elements::scope::{has, value_of};
use xs_elements::tags::{Tag, XSLT_URI, is_document_element, tag_of};
use xs_elements::value::{is_bad, is_unbound, is_unsupported};
use xs_tree::{Kind, Node, Tree};
use xs_xpath::scope::Scope;

/// An element that is looked at.
#[derive(Clone, Copy)]
pub(crate) struct Element<'m> {
    pub(crate) tree: &'m Tree,
    pub(crate) node: Node,
    pub(crate) tag: Tag,
    pub(crate) reading: Reading,
    /// Whether white space in it is preserved.
    pub(crate) preserves: bool,
}

impl Element<'_> {
    /// Whether it has an attribute in no namespace with this local part.
    fn has(&self, local: &str) -> bool
        requires { IsAt self.now }
        ensures { result ≡ has (records_of self.now) self.now.node local.now }
    {
        has(self.tree, self.node, local)
    }

    /// Whether it has a version, as an element of a whole module (2.2, 2.3).
    fn has_version(&self) -> bool
        requires { IsAt self.now }
        ensures { result ≡ has_version (records_of self.now) self.now.node }
    {
        match self.tag {
            Tag::Stylesheet => self.has("version"),
            Tag::Other => value_of(self.tree, self.node, XSLT_URI, "version").is_some(),
            _ => false,
        }
    }

    /// The least fault of the element itself: as a module's element, and as one that XSLT 1.0 has
    /// and this project does not.
    pub(crate) fn own_fault(&self) -> Option<u8>
        requires { IsAt self.now }
        ensures { result ≡ own_least (records_of self.now) self.now.node }
    {
        let is_bad = is_document_element(self.tree, self.node) && !self.has_version();
        lesser(
            where_holds(is_bad, BAD_ROOT),
            where_holds(matches!(self.tag, Tag::DecimalFormat), UNSUPPORTED),
        )
    }

    /// Whether the attributes are read. Those of an element that is not XSLT's and represents a
    /// whole module without a version are not.
    fn has_read_attributes(&self) -> bool
        requires { IsAt self.now }
        ensures { result ≡ has_read_attributes (records_of self.now) self.now.node }
    {
        match self.reading {
            Reading::Known => true,
            Reading::Literal | Reading::Extension => {
                !is_document_element(self.tree, self.node) || self.has_version()
            }
            Reading::Unread => false,
        }
    }

    /// What the value of an attribute has to be, none where the element has no such attribute.
    fn form_of(&self, attribute: Node) -> Option<Form>
        requires at { IsAt self.now }
        requires inside { attribute < length (records_of self.now) }
        ensures { result ≡ form_of (records_of self.now) self.now.node attribute }
    {
        let uri = self.tree.uri(attribute);
        let local = self.tree.local(attribute);
        match self.reading {
            Reading::Known if uri.is_empty() => form_named(self.tag, local),
            Reading::Known if uri == XSLT_URI => None,
            Reading::Literal | Reading::Extension if uri == XSLT_URI => form_named(self.tag, local),
            Reading::Literal => Some(Form::ValueTemplate),
            Reading::Known | Reading::Extension | Reading::Unread => Some(Form::Anything),
        }
    }

    /// The least fault of an attribute.
    fn attribute_fault(
        &self,
        alloc: Global,
        attribute: Node,
        scope: &Scope,
        visible: &Visible<'_, '_>,
    ) -> Result<Option<u8>, AllocError>
        requires at { IsAt self.now }
        requires inside { attribute < length (records_of self.now) }
        requires scope { scope.now.pairs.items ≡ scope_at (records_of self.now) self.now.node }
        ensures { IfOk result (λ fault. fault ≡ attribute_least (records_of self.now)
            self.now.node (known_by visible.now) attribute) }
    {
        match self.form_of(attribute) {
            Some(form) => {
                let value = self.tree.text(attribute);
                value_fault(alloc, form, value, scope, visible)
            }
            None => Ok(Some(UNKNOWN_ATTRIBUTE)),
        }
    }

    /// Whether an attribute is missing that has to be there.
    fn lacks(&self, attribute: &Attribute) -> bool
        requires { IsAt self.now }
        ensures { result ≡ is_missing (records_of self.now) self.now.node
            (allowed_data attribute.now) }
    {
        matches!(attribute.1, Need::Required) && !self.has(attribute.0)
    }

    /// Whether one of those is missing.
    fn lacks_required(&self) -> bool
        requires { IsAt self.now }
        ensures { result ≡ list_any (is_missing (records_of self.now) self.now.node)
            (attributes_of (tag_of (records_of self.now) self.now.node)) }
    {
        let mut rest = attributes(self.tag);
        while let Some((attribute, behind)) = rest.split_first() {
            if self.lacks(attribute) {
                return true;
            }
            rest = behind;
        }
        false
    }

    /// Whether it is a template with neither of the two attributes of which it has to have one
    /// (5.3).
    fn lacks_both(&self) -> bool
        requires { IsAt self.now }
        ensures { result ≡ lacks_both (records_of self.now) self.now.node }
    {
        matches!(self.tag, Tag::Template) && !self.has("match") && !self.has("name")
    }

    /// Whether attributes are missing.
    fn lacks_attribute(&self) -> bool
        requires { IsAt self.now }
        ensures { result ≡ lacks_some (records_of self.now) self.now.node }
    {
        self.lacks_required() || self.lacks_both()
    }

    /// The least fault of the attributes, by the namespaces in scope.
    pub(crate) fn attributes_fault(
        &self,
        alloc: Global,
        scope: &Scope,
        visible: &Visible<'_, '_>,
    ) -> Result<Option<u8>, AllocError>
        requires at { IsAt self.now }
        requires scope { scope.now.pairs.items ≡ scope_at (records_of self.now) self.now.node }
        ensures { IfOk result (λ fault. fault ≡ attributes_least (records_of self.now)
            self.now.node (known_by visible.now)) }
    {
        if !self.has_read_attributes() {
            return Ok(None);
        }
        let mut least = where_holds(self.lacks_attribute(), MISSING_ATTRIBUTE);
        for attribute in self.tree.attributes(self.node) {
            let fault = self.attribute_fault(alloc, attribute, scope, visible)?;
            least = lesser(least, fault);
        }
        Ok(least)
    }

    /// What may stand in it.
    fn content(&self) -> Content
        requires { IsAt self.now }
        ensures { result ≡ content_at (records_of self.now) self.now.node }
    {
        match self.reading {
            Reading::Known | Reading::Literal => content_of(self.tag, self.has("select")),
            Reading::Extension | Reading::Unread => Content::Unread,
        }
    }

    /// Whether a child is an element that may not stand in this content, after what stands before
    /// it.
    fn is_refused(&self, content: Content, child: Node, tag: Tag, before: Before) -> bool
        requires at { IsAt self.now }
        requires content { content ≡ content_at (records_of self.now) self.now.node }
        requires inside { child < length (records_of self.now) }
        requires tag { tag ≡ tag_of (records_of self.now) child }
        requires before { before ≡ before_of (content_before (records_of self.now)
            self.now.node child) }
        ensures { result ≡ is_refused (records_of self.now) self.now.node child }
    {
        if !matches!(self.tree.kind(child), Kind::Element) {
            return false;
        }
        let has_namespace = !self.tree.uri(child).is_empty();
        !may_stand(content, tag, has_namespace, before)
    }

    /// Whether a child is a text that is kept.
    fn keeps(&self, child: Node) -> bool
        requires at { IsAt self.now }
        requires inside { child < length (records_of self.now) }
        ensures { result ≡ is_kept_text (records_of self.now) self.now.node child }
    {
        matches!(self.tree.kind(child), Kind::Text)
            && is_kept(self.tree, child, self.tag, self.preserves)
    }

    /// Whether a child is a part of the content.
    fn is_content(&self, child: Node) -> bool
        requires at { IsAt self.now }
        requires inside { child < length (records_of self.now) }
        ensures { result ≡ is_content (records_of self.now) self.now.node child }
    {
        matches!(self.tree.kind(child), Kind::Element) || self.keeps(child)
    }

    /// What stands behind a child, with what stands before it.
    fn with_child(&self, before: Before, child: Node, tag: Tag) -> Before
        requires at { IsAt self.now }
        requires inside { child < length (records_of self.now) }
        requires tag { tag ≡ tag_of (records_of self.now) child }
        ensures { (done : List ℕ) → before ≡ before_of (tags_among (records_of self.now)
            self.now.node done) → result ≡ before_of (tags_among (records_of self.now)
            self.now.node (done ++ child ∷ [])) }
    {
        if self.is_content(child) {
            before.and(tag)
        } else {
            before
        }
    }

    /// Meets the faults of the elements that may not stand in it.
    fn meet_refused(&self, module: u32, lines: &[u32], least: &mut Least)
        requires { IsAt self.now }
        ensures { least.new.fault ≡ least_of least.old.fault (map (misplaced_fault «module»
            lines.now) (refused (records_of self.now) self.now.node)) }
    {
        let content = self.content();
        let mut before = Before::none();
        for child in self.tree.children(self.node) {
            let tag = tag_of(self.tree, child);
            let is_refused = self.is_refused(content, child, tag, before);
            meet_where(is_refused, module, line_of(lines, child), least);
            before = self.with_child(before, child, tag);
        }
    }

    /// Whether text stands in it where none may.
    fn has_misplaced_text(&self) -> bool
        requires { IsAt self.now }
        ensures { result ≡ has_misplaced_text (records_of self.now) self.now.node }
    {
        if holds_text(self.content()) {
            return false;
        }
        for child in self.tree.children(self.node) {
            if self.keeps(child) {
                return true;
            }
        }
        false
    }

    /// Whether it is an `xsl:choose` without `xsl:when` (9.2).
    fn lacks_branch(&self) -> bool
        requires { IsAt self.now }
        ensures { result ≡ lacks_branch (records_of self.now) self.now.node }
    {
        if !matches!(self.content(), Content::Branches) {
            return false;
        }
        for child in self.tree.children(self.node) {
            if matches!(tag_of(self.tree, child), Tag::When) {
                return false;
            }
        }
        true
    }

    /// Whether its own content is not as it has to be, whatever elements there are.
    fn is_misplaced(&self) -> bool
        requires { IsAt self.now }
        ensures { result ≡ (has_misplaced_text (records_of self.now) self.now.node
            || lacks_branch (records_of self.now) self.now.node) }
    {
        self.has_misplaced_text() || self.lacks_branch()
    }

    /// Meets the faults of places: of elements that may not stand in this one, and its own where
    /// text may not, or where `xsl:choose` has no branch.
    pub(crate) fn meet_misplaced(&self, module: u32, lines: &[u32], least: &mut Least)
        requires { IsAt self.now }
        ensures { least.new.fault ≡ least_of least.old.fault
            (misplaced_faults «module» (records_of self.now) lines.now self.now.node) }
    {
        self.meet_refused(module, lines, least);
        meet_where(
            self.is_misplaced(),
            module,
            line_of(lines, self.node),
            least,
        );
    }
}

/// The line of a node.
fn line_of(lines: &[u32], n: Node) -> u32
    ensures { result ≡ get_or lines.now n 0 }
{
    match lines.get(n.place() as usize) {
        Some(line) => *line,
        None => 0,
    }
}

/// Meets the fault of a misplaced node, where it is one.
fn meet_where(holds: bool, module: u32, line: u32, least: &mut Least)
    ensures { least.new.fault
        ≡ least_of least.old.fault (fault_where holds «module» line 37) }
{
    if holds {
        least.meet(module, line, MISPLACED);
    }
}

/// The least fault of an attribute's value.
fn value_fault(
    alloc: Global,
    form: Form,
    value: &str,
    scope: &Scope,
    visible: &Visible<'_, '_>,
) -> Result<Option<u8>, AllocError>
    ensures { IfOk result (λ fault. fault ≡ value_least form scope.now.pairs.items value.now
        (known_by visible.now form)) }
{
    let found = found_in_value(alloc, form, value, scope, &visible.seen_by(form))?;
    let unsupported = where_holds(is_unsupported(form, value), UNSUPPORTED);
    let bad = where_holds(is_bad(form, value), BAD_ATTRIBUTE);
    let unbound = where_holds(is_unbound(form, scope, value), UNBOUND_PREFIX);
    let unknown = where_holds(found.has_unknown, UNKNOWN_VARIABLE);
    let forbidden = where_holds(found.has_forbidden, FORBIDDEN);
    let plain = lesser(unsupported, lesser(bad, unbound));
    Ok(lesser(found.fault, lesser(plain, lesser(unknown, forbidden))))
}

//! The namespaces of extensions, and those that literal elements leave out (XSLT 1.0, 7.1.1 and
//! 14.1).

ghost use Rattle.std.specs.Prelude.{◌≡◌, ℕ, ◌+◌, ◌<◌, ◌&&◌, ◌||◌, nat_lt, false, List, [], length};
ghost use Rattle.std.specs.Prelude.{OnOk, option_map};
ghost use Rattle.std.specs.List.{list_any};
ghost use Rattle.std.specs.Option.{option_map_or};
ghost use Rattle.std.specs.Str.{bytes_eq};
ghost use Rattle.xs_elements.specs.Nodes.{scope_at};
ghost use Rattle.xs_elements.specs.Reading.{extension_value, is_in_extension, means_uri};
ghost use Rattle.xs_elements.specs.Reading.{reading_of, reading_of_other};
ghost use Rattle.xs_elements.specs.Tags.{is_top_level, tag_of};
ghost use Rattle.xs_elements.specs.WhiteSpace.{words};
ghost use Rattle.xs_structure.specs.Excluded.{excluded_value};
ghost use Rattle.xs_structure.specs.InForce.{in_force_at};
ghost use Rattle.xs_structure.specs.steps.Namespaces.{AreNamespaces, is_left_out_by, is_meant};

use crate::in_force::InForce;
use std::alloc::{AllocError, Global};
use xs_elements::reading::Reading;
use xs_elements::scope::value_of;
use xs_elements::tags::{Tag, XSLT_URI, is_top_level};
use xs_elements::words::first_word;
use xs_text::XML_URI;
use xs_tree::{InputHashes, Node, Tree};
use xs_xpath::scope::Scope;

/// The namespace that a word means; `#default` is the default one, or none.
fn meant_uri<'s>(scope: &'s Scope, word: &str) -> Option<&'s str>
    ensures { (uri : List ℕ) → means_uri scope.now.pairs.items uri word.now
        ≡ option_map_or (λ u. bytes_eq uri u.now) result false }
{
    if word == "#default" {
        match scope.uri_in("") {
            Some(uri) => Some(uri),
            None => Some(""),
        }
    } else {
        scope.uri_in(word)
    }
}

/// The namespace that a word means comes into force up to the node before a place.
fn enter_word<'s>(
    in_force: &mut InForce<'s>,
    scope: &'s Scope,
    word: &str,
    end: u32,
) -> Result<(), AllocError>
    ensures { OnOk result ((uri : List ℕ) (place : ℕ) → in_force_at in_force.new uri [] place
        ≡ ((means_uri scope.now.pairs.items uri word.now && nat_lt place end)
        || in_force_at in_force.old uri [] place)) }
{
    match meant_uri(scope, word) {
        Some(uri) => in_force.enter((uri, ""), end),
        None => Ok(()),
    }
}

/// The namespaces that the words of a list mean come into force up to a place.
fn enter_words<'s>(
    in_force: &mut InForce<'s>,
    scope: &'s Scope,
    value: &str,
    end: u32,
) -> Result<(), AllocError>
    ensures { OnOk result ((uri : List ℕ) (place : ℕ) → in_force_at in_force.new uri [] place
        ≡ ((list_any (means_uri scope.now.pairs.items uri) (words value.now)
        && nat_lt place end) || in_force_at in_force.old uri [] place)) }
{
    let mut rest = value;
    while let Some((word, behind)) = first_word(rest) {
        enter_word(in_force, scope, word, end)?;
        rest = behind;
    }
    Ok(())
}

/// The namespaces that a list means, if there is one, come into force up to a place.
fn enter_value<'s>(
    in_force: &mut InForce<'s>,
    scope: &'s Scope,
    value: Option<&str>,
    end: u32,
) -> Result<(), AllocError>
    ensures { OnOk result ((uri : List ℕ) (place : ℕ) → in_force_at in_force.new uri [] place
        ≡ ((is_meant scope.now.pairs.items uri (option_map (λ v. v.now) value.entry)
        && nat_lt place end) || in_force_at in_force.old uri [] place)) }
{
    match value {
        Some(value) => enter_words(in_force, scope, value, end),
        None => Ok(()),
    }
}

/// The attribute with the prefixes of extension namespaces, if an element has it.
fn extension_value(tree: &Tree, n: Node, tag: Tag) -> Option<&str>
    requires inside { n < length tree.now }
    ensures { option_map (λ value. value.now) result ≡ extension_value tag tree.now n }
{
    match tag {
        Tag::Stylesheet => value_of(tree, n, "", "extension-element-prefixes"),
        Tag::Other => value_of(tree, n, XSLT_URI, "extension-element-prefixes"),
        _ => None,
    }
}

/// The attribute with the prefixes of excluded namespaces, if an element has it: the stylesheet's
/// element, or a literal one.
fn excluded_value(tree: &Tree, n: Node, tag: Tag, is_extension: bool) -> Option<&str>
    requires inside { n < length tree.now }
    requires tag { tag ≡ tag_of tree.now n }
    requires extension { is_extension ≡ is_in_extension tree.now n }
    ensures { option_map (λ value. value.now) result
        ≡ excluded_value (reading_of tree.now n) tag tree.now n }
{
    match tag {
        Tag::Stylesheet => value_of(tree, n, "", "exclude-result-prefixes"),
        Tag::Other => {
            if is_extension || is_top_level(tree, n) {
                return None;
            }
            value_of(tree, n, XSLT_URI, "exclude-result-prefixes")
        }
        _ => None,
    }
}

/// The namespaces of extensions, and those that are excluded.
#[derive(Drop)]
pub(crate) struct Namespaces<'s> {
    extensions: InForce<'s>,
    excluded: InForce<'s>,
}

impl<'s> Namespaces<'s> {
    /// None, in tables with these hashes.
    pub(crate) fn new(alloc: Global, hashes: InputHashes) -> Namespaces<'s>
        ensures extensions { (uri : List ℕ) (place : ℕ)
            → in_force_at result.extensions uri [] place ≡ false }
        ensures excluded { (uri : List ℕ) (place : ℕ)
            → in_force_at result.excluded uri [] place ≡ false }
    {
        Namespaces {
            extensions: InForce::new(alloc, hashes),
            excluded: InForce::new(alloc, hashes),
        }
    }

    /// What the next node declares comes into force, by the namespaces in scope there.
    pub(crate) fn enter(
        &mut self,
        tree: &Tree,
        n: Node,
        tag: Tag,
        scope: &'s Scope,
    ) -> Result<(), AllocError>
        requires inside { n < length tree.now }
        requires tag { tag ≡ tag_of tree.now n }
        requires scope { scope.now.pairs.items ≡ scope_at tree.now n }
        requires namespaces { AreNamespaces tree.now n self.old }
        ensures { OnOk result (AreNamespaces tree.now (n + 1) self.new) }
    {
        let end = tree.subtree_end(n);
        let extensions = extension_value(tree, n, tag);
        enter_value(&mut self.extensions, scope, extensions, end)?;
        let is_extension = self.extensions.has(tree.uri(n), "", n.place());
        let excluded = excluded_value(tree, n, tag, is_extension);
        enter_value(&mut self.excluded, scope, excluded, end)?;
        Ok(())
    }

    /// Whether a node is in the namespace of an extension.
    fn is_extension(&self, tree: &Tree, n: Node) -> bool
        requires inside { n < length tree.now }
        requires namespaces { AreNamespaces tree.now (n + 1) self.now }
        ensures { result ≡ is_in_extension tree.now n }
    {
        let _count = tree.len();
        self.extensions.has(tree.uri(n), "", n.place())
    }

    /// How an element that is not XSLT's is read.
    fn reading_of_other(&self, tree: &Tree, n: Node) -> Reading
        requires inside { n < length tree.now }
        requires namespaces { AreNamespaces tree.now (n + 1) self.now }
        ensures { result ≡ reading_of_other (is_top_level tree.now n)
            (is_in_extension tree.now n) }
    {
        if is_top_level(tree, n) {
            return Reading::Unread;
        }
        if self.is_extension(tree, n) {
            return Reading::Extension;
        }
        Reading::Literal
    }

    /// How a node is read.
    pub(crate) fn reading_of(&self, tree: &Tree, n: Node, tag: Tag) -> Reading
        requires inside { n < length tree.now }
        requires tag { tag ≡ tag_of tree.now n }
        requires namespaces { AreNamespaces tree.now (n + 1) self.now }
        ensures { result ≡ reading_of tree.now n }
    {
        match tag {
            Tag::Other => self.reading_of_other(tree, n),
            Tag::DecimalFormat | Tag::Unknown | Tag::NoElement => Reading::Unread,
            _ => Reading::Known,
        }
    }

    /// Whether a literal element leaves out the node, whose namespace this is.
    pub(crate) fn leave_out(&self, n: Node, uri: &str) -> bool
        ensures { result ≡ is_left_out_by self.now n uri.now }
    {
        if uri == XSLT_URI || uri == XML_URI {
            return true;
        }
        self.extensions.has(uri, "", n.place()) || self.excluded.has(uri, "", n.place())
    }
}

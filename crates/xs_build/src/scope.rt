//! The bindings of prefixes that are in force in an element.

ghost use Rattle.std.specs.Prelude.{◌≡◌, [], ◌^◌, ◌<◌, List, IfOk, OnOk, length, map, option_map};
ghost use Rattle.std.specs.Prelude.{Some, option_copied, true, unwrap_or};
ghost use Rattle.std.specs.Str.{bytes_eq};
ghost use Rattle.xs_build.specs.Namespaces.{Bindings, outermost, bound, scope_with, uri_in, named};
ghost use Rattle.xs_build.specs.Namespaces.{element_name, attribute_name};
ghost use Rattle.xs_build.specs.steps.Views.{bindings_of};

use std::alloc::{AllocError, Global};
use std::collections::BTreeMap;
use std::marker::Model;
use std::rc::Rc;
use xs_text::{XML_URI, is_same};
use xs_tree::{Name, NameText};

/// A declaration: a prefix, empty for the default namespace, and its URI.
#[derive(Drop)]
pub struct Declared {
    /// The prefix, empty for the default namespace.
    pub prefix: NameText,
    /// The URI, empty where the default namespace is undone.
    pub uri: NameText,
}

/// The bindings in force in an element, by prefix; an element that declares nothing shares those
/// around it.
#[derive(Drop)]
pub struct Scope {
    bindings: Rc<BTreeMap<NameText, NameText>>,
}

impl Model for Scope {
    ghost use Rattle.std.specs.Prelude.{List, ℕ};

    ghost Value = { List (List ℕ × List ℕ) };

    ghost view = { λ s. s.bindings.value.entries };
}

/// Binds a prefix, or undoes the default namespace where the URI is empty.
#[tactic(auto, using(crate::proofs::BindingLemmas::undone, crate::proofs::BindingLemmas::added))]
fn bind(
    bindings: &mut BTreeMap<NameText, NameText>,
    prefix: NameText,
    uri: NameText,
) -> Result<(), AllocError>
    ensures { OnOk result (bindings.new.entries ≡ bound (prefix, uri) bindings.old.entries) }
{
    if uri.as_str().is_empty() {
        bindings.remove(&prefix);
        return Ok(());
    }
    bindings.insert(prefix, uri)?;
    Ok(())
}

/// Binds what is declared. The last comes first, since of two declarations of one prefix the first
/// counts.
fn bind_all(
    bindings: &mut BTreeMap<NameText, NameText>,
    mut declared: Vec<Declared>,
) -> Result<(), AllocError>
    ensures { OnOk result (bindings.new.entries ≡ scope_with
        (bindings_of declared) bindings.old.entries) }
{
    while let Some(Declared { prefix, uri }) = declared.pop() {
        bind(bindings, prefix, uri)?;
    }
    Ok(())
}

/// Whether two texts are the same, of which the first is often empty.
#[inline(always)]
#[tactic(auto, using(crate::proofs::TextLemmas::same_as_empty))]
fn are_same(text: &str, other: &str) -> bool
    ensures { result ≡ bytes_eq text.now other.now }
{
    if text.is_empty() {
        return other.is_empty();
    }
    is_same(text, other)
}

/// A name without a prefix.
fn plain_name(alloc: Global, uri: NameText, local: &str) -> Result<Name, AllocError>
    ensures { IfOk result (λ name. name ≡ named (record { prefix = []; local = local.now }) uri) }
{
    Ok(Name {
        uri,
        local: NameText::of(alloc, local)?,
        prefix: NameText::of(alloc, "")?,
    })
}

impl Scope {
    /// `xml` alone.
    pub fn outermost(alloc: Global) -> Result<Scope, AllocError>
        ensures { IfOk result (λ scope. scope ≡ outermost) }
    {
        let mut bindings = BTreeMap::new(alloc);
        bindings.insert(NameText::of(alloc, "xml")?, NameText::of(alloc, XML_URI)?)?;
        Ok(Scope {
            bindings: Rc::new(alloc, bindings)?,
        })
    }

    /// The same bindings.
    pub fn share(&self) -> Result<Scope, AllocError>
        ensures { IfOk result (λ scope. scope ≡ self.now) }
    {
        Ok(Scope {
            bindings: self.bindings.clone()?,
        })
    }

    /// The bindings, by the bytes of their prefixes.
    pub fn bindings(&self) -> &BTreeMap<NameText, NameText>
        ensures { result.now.entries ≡ self.now }
    {
        &self.bindings
    }

    /// The bindings inside a start tag with these declarations.
    pub fn with(&self, alloc: Global, declared: Vec<Declared>) -> Result<Scope, AllocError>
        ensures { IfOk result (λ scope. scope ≡ scope_with (bindings_of declared) self.now) }
    {
        if declared.is_empty() {
            return self.share();
        }
        let mut bindings = self.bindings().clone()?;
        bind_all(&mut bindings, declared)?;
        Ok(Scope {
            bindings: Rc::new(alloc, bindings)?,
        })
    }

    /// How many prefixes are bound.
    pub fn len(&self) -> usize
        ensures count { result ≡ length self.now }
        ensures few { result < 2 ^ 63 }
    {
        self.bindings.len()
    }

    /// The URI that a prefix represents.
    #[tactic(auto, unfolding(crate::specs::Namespaces::uri_in))]
    fn uri_of(&self, prefix: &NameText) -> Option<&NameText>
        ensures { option_copied result ≡ uri_in self.now prefix.now }
    {
        self.bindings.get(prefix)
    }

    /// The default namespace, empty where none is declared.
    fn default_uri(&self, alloc: Global) -> Result<NameText, AllocError>
        ensures { IfOk result (λ uri. uri ≡ unwrap_or (uri_in self.now []) []) }
    {
        let default = NameText::of(alloc, "")?;
        match self.uri_of(&default) {
            Some(uri) => uri.copy(),
            None => Ok(default),
        }
    }

    /// A name with a prefix; none where the prefix is not bound.
    fn prefixed_name(
        &self,
        alloc: Global,
        prefix: &str,
        local: &str,
    ) -> Result<Option<Name>, AllocError>
        ensures { IfOk result (λ name. name ≡ option_map
            (named (record { prefix = prefix.now; local = local.now }))
            (uri_in self.now prefix.now)) }
    {
        let prefix = NameText::of(alloc, prefix)?;
        match self.uri_of(&prefix) {
            Some(uri) => Ok(Some(Name {
                uri: uri.copy()?,
                local: NameText::of(alloc, local)?,
                prefix,
            })),
            None => Ok(None),
        }
    }

    /// The name of an element with this prefix and local part; none where the prefix is not bound.
    #[inline(never)]
    pub fn element_name(
        &self,
        alloc: Global,
        prefix: &str,
        local: &str,
    ) -> Result<Option<Name>, AllocError>
        ensures { IfOk result (λ name. name ≡ element_name self.now
            (record { prefix = prefix.now; local = local.now })) }
    {
        if !prefix.is_empty() {
            return self.prefixed_name(alloc, prefix, local);
        }
        Ok(Some(plain_name(alloc, self.default_uri(alloc)?, local)?))
    }

    /// Whether this is the name of an element with this prefix and local part.
    pub fn is_element_name(&self, name: &Name, prefix: &str, local: &str) -> bool
        ensures { result ≡ true → element_name self.now
            (record { prefix = prefix.now; local = local.now }) ≡ Some name.now }
    {
        are_same(name.prefix.as_str(), prefix)
            && is_same(name.local.as_str(), local)
            && self.has_uri_of(name)
    }

    /// Whether the URI of an element's name is the one that its prefix represents.
    fn has_uri_of(&self, name: &Name) -> bool
        ensures { result ≡ true → element_name self.now
            (record { prefix = name.now.prefix; local = name.now.local }) ≡ Some name.now }
    {
        match self.uri_of(&name.prefix) {
            Some(uri) => uri.as_str() == name.uri.as_str(),
            None => name.prefix.as_str().is_empty() && name.uri.as_str().is_empty(),
        }
    }

    /// The name of an attribute with this prefix and local part; none where the prefix is not
    /// bound.
    #[inline(never)]
    pub fn attribute_name(
        &self,
        alloc: Global,
        prefix: &str,
        local: &str,
    ) -> Result<Option<Name>, AllocError>
        ensures { IfOk result (λ name. name ≡ attribute_name self.now
            (record { prefix = prefix.now; local = local.now })) }
    {
        if !prefix.is_empty() {
            return self.prefixed_name(alloc, prefix, local);
        }
        let uri = NameText::of(alloc, "")?;
        Ok(Some(plain_name(alloc, uri, local)?))
    }

    /// Whether this is the name of an attribute with this prefix and local part.
    #[inline(always)]
    pub fn is_attribute_name(&self, name: &Name, prefix: &str, local: &str) -> bool
        ensures { result ≡ true → attribute_name self.now
            (record { prefix = prefix.now; local = local.now }) ≡ Some name.now }
    {
        are_same(name.prefix.as_str(), prefix)
            && is_same(name.local.as_str(), local)
            && self.has_own_uri(name)
    }

    /// Whether the URI of an attribute's name is the one that its prefix represents, which is none
    /// where it has no prefix.
    fn has_own_uri(&self, name: &Name) -> bool
        ensures { result ≡ true → attribute_name self.now
            (record { prefix = name.now.prefix; local = name.now.local }) ≡ Some name.now }
    {
        if name.prefix.as_str().is_empty() {
            return name.uri.as_str().is_empty();
        }
        match self.uri_of(&name.prefix) {
            Some(uri) => uri.as_str() == name.uri.as_str(),
            None => false,
        }
    }
}

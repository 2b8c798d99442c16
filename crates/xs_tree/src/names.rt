//! Expanded names and the texts that they are made of.

ghost use Rattle.std.specs.Prelude.{◌≡◌, ◌↔◌, IfOk, IsTrue, Some};
ghost use Rattle.std.specs.Cmp;
ghost use Rattle.std.specs.Cmp.{on_equiv, on_per};
ghost use Rattle.std.specs.Cmp.Lexicographic.{nat_list_eq_equiv, nat_list_cmp_total, texts_ties};
ghost use Rattle.std.specs.Cmp.Lexicographic.{texts_po};
ghost use Rattle.std.proofs.Common.{refl};
ghost use Rattle.xs_tree.specs.Names.{same_text, order_of_texts};
ghost use Rattle.xs_tree.specs.Shape.{IsLocalName};

use std::alloc::{AllocError, Global};
use std::cmp::Ordering;
use std::marker::Model;

/// A part of a name: a prefix, a local part or a namespace URI.
#[derive(Drop, Debug)]
pub struct NameText {
    text: String,
}

impl Model for NameText {
    ghost use Rattle.std.specs.Prelude.{List, ℕ, string_bytes};

    ghost Value = { List ℕ };

    ghost view = { λ n. string_bytes n.text };
}

impl NameText {
    /// The name part with these characters.
    pub fn of(alloc: Global, text: &str) -> Result<NameText, AllocError>
        ensures value { IfOk result (λ part. part ≡ text.now) }
    {
        let text = String::from_str(alloc, text)?;
        Ok(NameText { text })
    }

    /// The characters.
    pub fn as_str(&self) -> &str
        ensures value { result.now ≡ self.now }
    {
        self.text.as_str()
    }

    /// The same characters in memory of their own.
    pub fn copy(&self) -> Result<NameText, AllocError>
        ensures value { IfOk result (λ part. part ≡ self.now) }
    {
        if self.as_str().is_empty() {
            return Ok(NameText {
                text: String::new(*self.text.allocator()),
            });
        }
        Ok(NameText {
            text: self.text.clone()?,
        })
    }
}

impl Clone for NameText {
    ghost is_clone = { λ part made. made ≡ part };

    fn clone(&self) -> Result<NameText, AllocError> {
        self.copy()
    }
}

impl PartialEq for NameText {
    ghost eq = { same_text };

    ghost laws = { Cmp.partial_equiv_from_equiv nat_list_eq_equiv };

    fn eq(&self, other: &Self) -> bool {
        self.as_str() == other.as_str()
    }
}

impl Eq for NameText {
    ghost laws = { nat_list_eq_equiv };
}

impl PartialOrd for NameText {
    ghost partial_cmp = { λ a b. Some (order_of_texts a b) };

    ghost laws = { texts_po };

    fn partial_cmp(&self, other: &Self) -> Option<Ordering> {
        Some(self.cmp(other))
    }
}

impl Ord for NameText {
    ghost cmp = { order_of_texts };

    ghost total = { nat_list_cmp_total };

    ghost matches_partial_cmp = { λ a b. refl };

    ghost matches_eq = { texts_ties };

    fn cmp(&self, other: &Self) -> Ordering {
        self.as_str().cmp(other.as_str())
    }
}

/// An expanded name with the prefix that it was written with (Namespaces in XML 1.0, 2.1 and 4).
#[derive(Drop, Debug, PartialEq, Eq, PartialOrd, Ord)]
pub struct Name {
    /// The namespace URI, empty for none.
    pub uri: NameText,
    /// The local part. Of a namespace node the prefix, of a processing instruction the target.
    pub local: NameText,
    /// The prefix, empty for none.
    pub prefix: NameText,
}

impl Name {
    /// Whether the name is a local part alone, in no namespace and without a prefix.
    pub fn is_local(&self) -> bool
        ensures { IsTrue result ↔ IsLocalName self.now }
    {
        self.uri.as_str().is_empty() && self.prefix.as_str().is_empty()
    }

    /// The same name in memory of its own.
    pub fn copy(&self) -> Result<Name, AllocError>
        ensures value { IfOk result (λ name. name ≡ self.now) }
    {
        Ok(Name {
            uri: self.uri.copy()?,
            local: self.local.copy()?,
            prefix: self.prefix.copy()?,
        })
    }
}

//! Prefixes and URIs as keys of maps.
ghost use Rattle.std.specs.Prelude.{◌≡◌, IfOk, Some};
ghost use Rattle.std.specs.Cmp;
ghost use Rattle.std.specs.Cmp.Lexicographic.{nat_list_cmp_total, nat_list_eq_equiv, texts_po};
ghost use Rattle.std.specs.Cmp.Lexicographic.{texts_ties};
ghost use Rattle.std.specs.Str.{bytes_eq};
ghost use Rattle.std.proofs.Common.{refl};
ghost use Rattle.xs_result_lines.specs.Bindings.{order_of_prefixes};

use std::alloc::{AllocError, Global};
use std::cmp::Ordering;
use std::marker::Model;
use xs_text::TextBuf;

/// A text that is a key, by its bytes. It shares them with the text that it was made of.
#[derive(Drop)]
pub(crate) struct TextKey {
    text: TextBuf,
}

impl Model for TextKey {
    ghost use Rattle.std.specs.Prelude.{List, ℕ};

    ghost Value = { List ℕ };

    ghost view = { λ k. k.text };
}

impl TextKey {
    /// The key of a text.
    pub(crate) fn of(text: &TextBuf) -> Result<TextKey, AllocError>
        ensures { IfOk result (λ key. key ≡ text.now) }
    {
        Ok(TextKey { text: text.copy()? })
    }

    /// The key of a text, in memory of its own.
    pub(crate) fn of_str(alloc: Global, text: &str) -> Result<TextKey, AllocError>
        ensures { IfOk result (λ key. key ≡ text.now) }
    {
        Ok(TextKey {
            text: TextBuf::of(alloc, text)?,
        })
    }

    /// The text.
    pub(crate) fn text(&self) -> &TextBuf
        ensures { result.now ≡ self.now }
    {
        &self.text
    }

    /// The characters.
    pub(crate) fn as_str(&self) -> &str
        ensures { result.now ≡ self.now }
    {
        self.text.as_str()
    }
}

impl PartialEq for TextKey {
    ghost eq = { bytes_eq };

    ghost laws = { Cmp.partial_equiv_from_equiv nat_list_eq_equiv };

    fn eq(&self, other: &Self) -> bool {
        self.as_str() == other.as_str()
    }
}

impl Eq for TextKey {
    ghost laws = { nat_list_eq_equiv };
}

impl PartialOrd for TextKey {
    ghost partial_cmp = { λ a b. Some (order_of_prefixes a b) };

    ghost laws = { texts_po };

    fn partial_cmp(&self, other: &Self) -> Option<Ordering> {
        Some(self.cmp(other))
    }
}

impl Ord for TextKey {
    ghost cmp = { order_of_prefixes };

    ghost total = { nat_list_cmp_total };

    ghost matches_partial_cmp = { λ a b. refl };

    ghost matches_eq = { texts_ties };

    fn cmp(&self, other: &Self) -> Ordering {
        self.as_str().cmp(other.as_str())
    }
}

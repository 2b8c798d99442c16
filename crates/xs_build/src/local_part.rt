//! Local parts of names, in the bytes of the document.

ghost use Rattle.std.specs.Prelude.{◌≡◌, Some};
ghost use Rattle.std.specs.Cmp;
ghost use Rattle.std.specs.Cmp.{on_equiv, on_per};
ghost use Rattle.std.specs.Cmp.Lexicographic.{nat_list_eq_equiv, nat_list_cmp_total, texts_ties};
ghost use Rattle.std.specs.Cmp.Lexicographic.{texts_po};
ghost use Rattle.std.proofs.Common.{refl};
ghost use Rattle.xs_tree.specs.Names.{same_text, order_of_texts};

use std::cmp::Ordering;
use std::marker::Model;

/// The local part of a name (Namespaces in XML 1.0, 4). Contracts see it as its bytes.
#[derive(Drop, Debug)]
pub struct LocalPart<'a> {
    text: &'a str,
}

impl<'a> Model for LocalPart<'a> {
    ghost use Rattle.std.specs.Prelude.{List, ℕ};

    ghost Value = { List ℕ };

    ghost view = { λ l. l.text.now };
}

impl<'a> LocalPart<'a> {
    /// The local part with these characters.
    pub fn of(text: &'a str) -> LocalPart<'a>
        ensures { result ≡ text.now }
    {
        LocalPart { text }
    }

    /// The characters.
    pub fn as_str(&self) -> &'a str
        ensures { result.now ≡ self.now }
    {
        self.text
    }
}

impl<'a> PartialEq for LocalPart<'a> {
    ghost eq = { same_text };

    ghost laws = { Cmp.partial_equiv_from_equiv nat_list_eq_equiv };

    fn eq(&self, other: &Self) -> bool {
        self.as_str() == other.as_str()
    }
}

impl<'a> Eq for LocalPart<'a> {
    ghost laws = { nat_list_eq_equiv };
}

impl<'a> PartialOrd for LocalPart<'a> {
    ghost partial_cmp = { λ a b. Some (order_of_texts a b) };

    ghost laws = { texts_po };

    fn partial_cmp(&self, other: &Self) -> Option<Ordering> {
        Some(self.cmp(other))
    }
}

impl<'a> Ord for LocalPart<'a> {
    ghost cmp = { order_of_texts };

    ghost total = { nat_list_cmp_total };

    ghost matches_partial_cmp = { λ a b. refl };

    ghost matches_eq = { texts_ties };

    fn cmp(&self, other: &Self) -> Ordering {
        self.as_str().cmp(other.as_str())
    }
}

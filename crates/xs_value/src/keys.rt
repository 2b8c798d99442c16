//! What finds nodes by key (XSLT 1.0, 12.2).

ghost use Rattle.std.specs.Prelude.{◌≡◌, List, position, []};
ghost use Rattle.xs_value.specs.Tables.{AreTables, Table, is_named, table_at};
ghost use Rattle.xs_value.specs.Keys.{Finds, found_nodes};
ghost use Rattle.std.proofs.Common.{rules};

use std::alloc::{AllocError, Global};
use xs_trace::fault::Fault;
use xs_tree::Node;

/// The nodes that a key gives for a text, in document order.
#[derive(Debug, Drop)]
pub enum Found<'a> {
    /// A list that was made.
    Made(Vec<Node>),
    /// A list that is kept.
    Kept(&'a [Node]),
}

impl Found<'_> {
    /// The nodes, in document order.
    pub fn nodes(&self) -> &[Node]
        ensures nodes { result.now ≡ found_nodes self.now }
    {
        match self {
            Found::Made(nodes) => nodes.as_slice(),
            Found::Kept(nodes) => nodes,
        }
    }
}

/// Why a key gives no nodes.
#[derive(Clone, Copy, PartialEq, Eq, Debug)]
pub enum KeyEnd {
    /// The key's table has this fault.
    Fault(Fault),
    /// Memory ran out.
    NoMemory,
}

impl From<AllocError> for KeyEnd {
    ghost use Rattle.std.specs.Prelude.{◌≡◌};
    ghost use Rattle.xs_value.specs.declared.keys.KeyEnd.TheVariants.{NoMemory};

    ghost from_gives = { λ _ made. made ≡ NoMemory };

    /// Out of memory.
    fn from(_refused: AllocError) -> KeyEnd {
        KeyEnd::NoMemory
    }
}

/// Finds nodes by key.
pub trait KeyFinder: Sync {
    /// The tables, in the order of the keys' numbers.
    ghost tables: { Self → List Table };

    /// The number of the key with an expanded name; `None` exactly where no key has it.
    fn number_of(&self, uri: &str, local: &str) -> Option<u32>
        ensures number { result ≡ position (is_named uri.now local.now) (tables self.now) };

    /// The nodes that the key with a number gives for a text, in document order. A number that no
    /// key has gives none.
    fn find(&self, alloc: Global, key: u32, text: &str) -> Result<Found<'_>, KeyEnd>
        ensures found { Finds (table_at (tables self.now) key) text.now result };

    /// What holds of the tables.
    ghost are_tables: { (finder : Self) → AreTables (tables finder) };
}

/// A finder without any key.
#[derive(Clone, Copy, Debug, Drop)]
pub struct NoKeys;

impl KeyFinder for NoKeys {
    ghost tables = { λ _. [] };

    ghost are_tables = { λ _. record {
      few = Prim.search rules;
      differ = λ j k before within. Prim.search rules;
      ordered = λ k text. tt;
      faults = λ k. tt;
    } };

    /// No name is a key's.
    fn number_of(&self, _uri: &str, _local: &str) -> Option<u32> {
        None
    }

    /// No nodes.
    fn find(&self, alloc: Global, _key: u32, _text: &str) -> Result<Found<'_>, KeyEnd> {
        Ok(Found::Made(Vec::new(alloc)))
    }
}

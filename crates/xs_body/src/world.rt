//! What a stylesheet is evaluated over.

use std::marker::Model;
use xs_attribute_sets::index::SetIndex;
use xs_body_spec::finder::Finder;
use xs_sheet::sheet::Sheet;
use xs_tree::Tree;
use xs_value::value::Value;

/// A stylesheet that is sound, and what it is evaluated over (`IsWorld`).
#[derive(Drop)]
pub struct World<'a, K: Finder> {
    /// The stylesheet.
    pub sheet: &'a Sheet,
    /// By which its attribute sets are found.
    pub index: &'a SetIndex<'a>,
    /// The documents.
    pub tree: &'a Tree,
    /// What finds rules, nodes by key and numbers, for this stylesheet and over these documents.
    pub finder: &'a K,
    /// The values of the globals; one that is not settled has none.
    pub globals: &'a [Option<Value>],
    /// The most nodes over which one piece goes, where larger runs are left to tasks.
    pub grain: Option<u32>,
}

impl<'a, K: Finder> Model for World<'a, K> {
    ghost use Rattle.std.specs.Coded.{codes};
    ghost use Rattle.std.specs.Prelude.{◌≡◌};
    ghost use denote.Signature.{static_lft};
    ghost use Rattle.xs_attribute_sets.specs.contracts.index.SetIndex as of_index;
    ghost use Rattle.xs_sheet.specs.contracts.sheet.Sheet as of_sheet;
    ghost use Rattle.xs_body_spec.specs.World.{World};
    ghost use Rattle.xs_body.specs.Inside.{IsWorld};

    ghost Value = { World };

    ghost coded = { Prim.hlevel (
      codes,
      of_sheet.the_row.coded,
      (of_index.the_row static_lft).coded,
    ) };

    ghost view = { λ w. record {
      sheet = w.sheet.now;
      index = w.index.now;
      tree = w.tree.now;
      keys = K.tables w.finder.now;
      globals = w.globals.now;
      grain = w.grain;
    } };

    ghost invariant = { λ w. IsWorld (record {
      sheet = w.sheet.now;
      index = w.index.now;
      tree = w.tree.now;
      keys = K.tables w.finder.now;
      globals = w.globals.now;
      grain = w.grain;
    }) × (K.sheet w.finder.now ≡ w.sheet.now) × (K.tree w.finder.now ≡ w.tree.now)
        × K.is_ready w.finder.now };
}

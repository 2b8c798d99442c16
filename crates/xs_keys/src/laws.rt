//! The laws of keys.

ghost use Rattle.std.specs.Prelude.{List};
ghost use Rattle.xs_keys.specs.Laws.{KeyLaws};
ghost use Rattle.xs_sheet.specs.declared.declarations.KeyDecl.{KeyDecl};
ghost use Rattle.xs_tree.specs.Record.{Record};

/// The tables have the nodes that the keys give.
pub fn keys()
    ensures { (rs : List Record) (ds : List KeyDecl) → KeyLaws rs ds }
{}

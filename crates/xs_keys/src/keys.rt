//! The keys of a stylesheet over the nodes of a tree (XSLT 1.0, 12.2).

ghost use Rattle.std.specs.List.{All, list_any};
ghost use Rattle.std.specs.Prelude.{◌≡◌, ◌<◌, ◌^◌, IfOk, IfSome, OnOk, length, position};
ghost use Rattle.xs_keys.specs.lemmas.TableLemmas.{are_tables};
ghost use Rattle.xs_keys.specs.KeyTables.{is_same, tables_of, with_label};
ghost use Rattle.xs_keys.specs.Find.{IsKept};
ghost use Rattle.xs_keys.specs.steps.Cells.{AreCells, IsCellOf, is_name, names_in};
ghost use Rattle.xs_value.specs.Keys.{Finds};
ghost use Rattle.xs_value.specs.Tables.{TablesIn, table_at};

use crate::cells::{Hashed, KeyCell, cell_of, is_same};
use std::alloc::{AllocError, Global};
use std::snapshot::Snapshot;
use std::thread::Threads;
use xs_sheet::declarations::KeyDecl;
use xs_sheet::sheet::Sheet;
use xs_trace::event::Label;
use xs_tree::{InputHashes, Tree};
use xs_value::keys::{Found, KeyEnd, KeyFinder};

/// The keys of a stylesheet over the nodes of a tree. That they are those of both is the type's
/// fact.
#[derive(Drop)]
pub struct KeyCells {
    sheet: Snapshot<Sheet>,
    tree: Snapshot<Tree>,
    cells: Vec<KeyCell>,
    ghost few: { length sheet.value.keys < 2 ^ 32 },
    ghost cells_are: { AreCells tree.value sheet.value.keys cells.items },
}

impl KeyCells {
    /// The keys that a stylesheet declares, over the nodes of a tree. A key's declarations are
    /// evaluated over runs of nodes, many at once.
    pub fn new<R: Threads + Sync>(
        rt: &R,
        alloc: Global,
        sheet: &Sheet,
        tree: &Tree,
    ) -> Result<KeyCells, AllocError>
        requires few { length sheet.now.keys < 2 ^ 32 }
        ensures tables { IfOk result (λ keys. ⟦<KeyCells as KeyFinder>⟧.tables keys
            ≡ tables_of tree.now sheet.now.keys) }
        ensures inside { IfOk result (λ keys. TablesIn tree.now
            (⟦<KeyCells as KeyFinder>⟧.tables keys)) }
    {
        let cells = cells_of(rt, alloc, sheet.keys.as_slice(), tree)?;
        Ok(KeyCells {
            sheet: Snapshot::of(sheet),
            tree: Snapshot::of(tree),
            cells,
        })
    }
}

impl KeyFinder for KeyCells {
    ghost tables = { λ keys. tables_of keys.tree.value keys.sheet.value.keys };

    ghost are_tables = { λ keys. are_tables keys.tree.value keys.sheet.value.keys keys.few };

    /// The number of the key with a name.
    fn number_of(&self, uri: &str, local: &str) -> Option<u32> {
        match place_of(&self.cells, uri, local) {
            Some(place) => Some(place as u32),
            None => None,
        }
    }

    /// The nodes, which are kept: it takes no memory, and no lock.
    fn find(&self, _alloc: Global, key: u32, text: &str) -> Result<Found<'_>, KeyEnd>
        ensures found { Finds (table_at (⟦<KeyCells as KeyFinder>⟧.tables self.now) key)
            text.now result }
        ensures kept { IsKept result }
    {
        match self.cells.get(key as usize) {
            Some(cell) => cell.find(text),
            None => Ok(Found::Kept(&[])),
        }
    }
}

// The place of the key with a name.
fn place_of(cells: &[KeyCell], uri: &str, local: &str) -> Option<usize>
    ensures place { result ≡ position (λ c. is_name uri.now local.now c.name) cells.now }
    ensures within { IfSome result (λ place. place < length cells.now) }
{
    cells
        .iter()
        .position(|cell| is_name(&cell.name, uri, local))
}

// Whether a name has a URI and a local part.
fn is_name(name: &Label, uri: &str, local: &str) -> bool
    ensures { result ≡ is_name uri.now local.now name.now }
{
    if name.uri() != uri {
        return false;
    }
    name.local() == local
}

// The keys, in the order of their first declarations.
fn cells_of<R: Threads + Sync>(
    rt: &R,
    alloc: Global,
    decls: &[KeyDecl],
    tree: &Tree,
) -> Result<Vec<KeyCell>, AllocError>
    ensures { IfOk result (λ cells. AreCells tree.now decls.now cells.items) }
{
    let mut cells = Vec::new(alloc);
    let hashes = hashes_for(decls, tree);
    let hashed = Hashed { tree, hashes };
    for decl in decls {
        add_cell(&mut cells, rt, alloc, &decl.name, decls, &hashed)?;
    }
    Ok(cells)
}

// Hashes that have taken in a tree, where keys are declared.
fn hashes_for(decls: &[KeyDecl], tree: &Tree) -> InputHashes {
    if decls.is_empty() {
        return InputHashes::new();
    }
    tree.hashes()
}

// Adds the key of a name, if it is not there.
fn add_cell<R: Threads + Sync>(
    cells: &mut Vec<KeyCell>,
    rt: &R,
    alloc: Global,
    name: &Label,
    decls: &[KeyDecl],
    hashed: &Hashed<'_>,
) -> Result<(), AllocError>
    requires cells { All (IsCellOf hashed.now.tree.now decls.now) cells.old.items }
    ensures names { OnOk result (names_in cells.new.items
        ≡ with_label (names_in cells.old.items) name.now) }
    ensures cells { OnOk result (All (IsCellOf hashed.now.tree.now decls.now) cells.new.items) }
{
    if has_name(cells, name) {
        return Ok(());
    }
    let own = name.copy()?;
    let cell = cell_of(rt, alloc, own, decls, hashed)?;
    cells.push(cell)?;
    Ok(())
}

// Whether a key has a name.
fn has_name(cells: &[KeyCell], name: &Label) -> bool
    ensures { result ≡ list_any (is_same name.now) (names_in cells.now) }
{
    for cell in cells {
        if is_same(name, &cell.name) {
            return true;
        }
    }
    false
}

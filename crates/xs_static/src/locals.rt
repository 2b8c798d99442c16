//! The local bindings of variables that are visible (XSLT 1.0, 11.5).

ghost use Rattle.std.specs.Prelude.{◌≡◌, ℕ, ◌+◌, ◌<◌, List, [], length, false, Some, OnOk};
ghost use Rattle.std.specs.Prelude.{option_map};
ghost use Rattle.xs_elements.specs.Nodes.{name_data};
ghost use Rattle.xs_static.specs.steps.Locals.{AreLocals, EndFrom, bound_at, open_in};
ghost use Rattle.xs_structure.specs.Bindings.{local_name};

use std::alloc::{AllocError, Global};
use xs_elements::scope::Expanded;
use xs_structure::in_force::InForce;
use xs_tree::{InputHashes, Node, Tree};

/// A binding whose element is open: it is visible from the end of that on to the end of the parent.
#[derive(Clone, Copy)]
struct OpenBinding<'m> {
    name: Expanded<'m>,
    /// The place behind its element.
    end: u32,
    /// The place behind the parent of that.
    reach: u32,
}

/// The local bindings of a module that came so far.
#[derive(Drop)]
pub(crate) struct Locals<'m> {
    /// Those that the walk is behind.
    pub(crate) in_force: InForce<'m>,
    /// Those that it is inside, the outermost first.
    open: Vec<OpenBinding<'m>>,
}

impl<'m> Locals<'m> {
    /// None, in a table with these hashes.
    pub(crate) fn new(alloc: Global, hashes: InputHashes) -> Locals<'m>
        ensures bound { (uri local : List ℕ) (k : ℕ) → bound_at result uri local k ≡ false }
        ensures none { open_in result ≡ [] }
    {
        Locals {
            in_force: InForce::new(alloc, hashes),
            open: Vec::new(alloc),
        }
    }

    /// The bindings whose elements end before a place come into force.
    pub(crate) fn pass(&mut self, tree: &Tree, n: Node) -> Result<(), AllocError>
        requires { AreLocals tree.now n self.old }
        ensures locals { OnOk result (AreLocals tree.now n self.new) }
        ensures passed { OnOk result (EndFrom (n + 1) (open_in self.new)) }
    {
        while let Some(last) = self.open.last() {
            let last = *last;
            if last.end > n.place() {
                return Ok(());
            }
            self.open.pop();
            self.in_force.enter(last.name, last.reach)?;
        }
        Ok(())
    }

    /// A binding comes, if the next node is one.
    pub(crate) fn note(
        &mut self,
        tree: &'m Tree,
        n: Node,
        name: Option<Expanded<'m>>,
    ) -> Result<(), AllocError>
        requires inside { n < length tree.now }
        requires locals { AreLocals tree.now n self.old }
        requires passed { EndFrom (n + 1) (open_in self.old) }
        requires name { option_map name_data name ≡ local_name tree.now n }
        ensures { OnOk result (AreLocals tree.now (n + 1) self.new) }
    {
        let _count = tree.len();
        match name {
            Some(name) => self.open_binding(tree, n, name),
            None => Ok(()),
        }
    }

    /// A binding comes, which the next node is.
    fn open_binding(
        &mut self,
        tree: &'m Tree,
        n: Node,
        name: Expanded<'m>,
    ) -> Result<(), AllocError>
        requires inside { n < length tree.now }
        requires locals { AreLocals tree.now n self.old }
        requires passed { EndFrom (n + 1) (open_in self.old) }
        requires name { local_name tree.now n ≡ Some (name_data name) }
        ensures { OnOk result (AreLocals tree.now (n + 1) self.new) }
    {
        let end = tree.subtree_end(n);
        match tree.parent(n) {
            Some(parent) => {
                let reach = tree.subtree_end(parent);
                self.open.push(OpenBinding { name, end, reach })?;
                Ok(())
            }
            None => Ok(()),
        }
    }
}

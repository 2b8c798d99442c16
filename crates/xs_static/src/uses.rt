//! The names that the declarations of each name use.

ghost use Rattle.std.specs.Prelude.{◌≡◌, ◌+◌, ◌++◌, [], IfOk, None, OnOk, if◌then◌else◌, is_some};
ghost use Rattle.std.specs.Prelude.{map};
ghost use Rattle.std.specs.HashMap.{hash_map_len};
ghost use Rattle.xs_elements.specs.Nodes.{Name, is_same_name, name_data};
ghost use Rattle.xs_static.specs.Circles.{used_by};
ghost use Rattle.xs_static.specs.Declarations.{declared_all};
ghost use Rattle.xs_static.specs.steps.Uses.{left_in, names_in, taken_len, uses_in, uses_size};

use crate::circles::Declaration;
use std::alloc::{AllocError, Global};
use std::collections::HashMap;
use xs_elements::scope::Expanded;
use xs_tree::InputHashes;

/// By name the names that its declarations use, one after another.
#[derive(Drop)]
pub(crate) struct Uses<'a> {
    names: HashMap<Expanded<'a>, Vec<Expanded<'a>>, InputHashes>,
}

impl<'a> Uses<'a> {
    /// Those of all declarations, in a table with these hashes.
    pub(crate) fn of(
        alloc: Global,
        hashes: InputHashes,
        declarations: &[Declaration<'a>],
    ) -> Result<Uses<'a>, AllocError>
        ensures { IfOk result (λ uses. (n : Name)
            → uses_in uses n ≡ used_by (declared_all declarations.now) n) }
    {
        let mut uses = Uses {
            names: HashMap::with_hasher(alloc, hashes),
        };
        for declaration in declarations {
            uses.add(alloc, declaration.name, &declaration.sets)?;
        }
        Ok(uses)
    }

    /// The same the other way round: by name the names whose declarations use it, none for a name
    /// that is declared and not used.
    pub(crate) fn turned(
        alloc: Global,
        hashes: InputHashes,
        declarations: &[Declaration<'a>],
    ) -> Result<Uses<'a>, AllocError> {
        let mut users = Uses {
            names: HashMap::with_hasher(alloc, hashes),
        };
        for declaration in declarations {
            users.add(alloc, declaration.name, &[])?;
            for used in &declaration.sets {
                users.add(alloc, *used, &[declaration.name])?;
            }
        }
        Ok(users)
    }

    /// The names that one declaration more of a name uses.
    fn add(
        &mut self,
        alloc: Global,
        name: Expanded<'a>,
        sets: &[Expanded<'a>],
    ) -> Result<(), AllocError>
        ensures { OnOk result ((n : Name) → uses_in self.new n
            ≡ uses_in self.old n
            ++ (if is_same_name (name_data name.entry) n then map name_data sets.now else [])) }
    {
        let mut names = self.take_or_none(alloc, name);
        names.extend_from_slice(sets)?;
        self.names.insert(name, names)?;
        Ok(())
    }

    /// Takes what a name uses out of the table, no names where it is not there.
    fn take_or_none(&mut self, alloc: Global, name: Expanded<'a>) -> Vec<Expanded<'a>>
        ensures names { map name_data result.items ≡ uses_in self.old (name_data name.entry) }
        ensures left { (n : Name) → left_in self.new n
            ≡ (if is_same_name (name_data name.entry) n then None else left_in self.old n) }
    {
        match self.take(name) {
            Some(names) => names,
            None => Vec::new(alloc),
        }
    }

    /// Takes what a name uses out of the table, if it is there.
    pub(crate) fn take(&mut self, name: Expanded<'a>) -> Option<Vec<Expanded<'a>>>
        ensures names { names_in result ≡ left_in self.old (name_data name.entry) }
        ensures left { (n : Name) → left_in self.new n
            ≡ (if is_same_name (name_data name.entry) n then None else left_in self.old n) }
        ensures size { uses_size self.new + taken_len result ≡ uses_size self.old }
        ensures count { hash_map_len self.new.names + (if is_some result then 1 else 0)
            ≡ hash_map_len self.old.names }
    {
        self.names.remove(&name)
    }

    /// Whether the table has what a name uses.
    pub(crate) fn has(&self, name: Expanded<'_>) -> bool {
        self.names.contains_key(&name)
    }
}

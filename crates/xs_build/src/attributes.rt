//! Lines that are attributes and declarations.

ghost use Rattle.std.specs.Prelude.{◌≡◌, ◌<◌, [], true, length, reverse, IfOk, IfSome, OnOk};
ghost use Rattle.xs_build.specs.steps.Lines.{named_step, scope_of, attribute_step};
ghost use Rattle.xs_build.specs.steps.Lines.{declaration_step, plain_step, written_step};
ghost use Rattle.xs_build.specs.steps.Lines.{declaration_name, expanded};
ghost use Rattle.xs_build.specs.Namespaces.{attribute_name, declared_prefix};
ghost use Rattle.xs_build.specs.steps.Invariant.{IsGood};
ghost use Rattle.xs_build.specs.steps.Names.{IsAttribute, IsNamed, full_name};
ghost use Rattle.xs_build.specs.steps.State.{state, context, taken, Steps};
ghost use Rattle.xs_build.specs.steps.Known.{parts_of};

use crate::builder::Builder;
use crate::fault::{
    BAD_LINE, BAD_NAME, BAD_NAMESPACE, BuildFault, DOUBLE_ATTRIBUTE, TOO_LARGE, UNBOUND_PREFIX,
};
use crate::known::{NodeName, ReadName};
use crate::local_part::LocalPart;
use crate::nodes::{put_attribute, put_attribute_like};
use crate::qnames::{declared_prefix, is_bad_binding};
use crate::tag_names::Expanded;
use std::alloc::{AllocError, Global};
use xs_text::XMLNS_URI;
use xs_tree::{MOST_NODES, Name, NameText, Node, Tree};

impl<'a> Builder<'a> {
    /// Takes an attribute or a declaration.
    #[tactic(auto, unfolding(crate::specs::steps::Lines::attribute_step))]
    pub fn attribute(&mut self, alloc: Global, name: &'a str, value: &str) -> Result<(), BuildFault>
        requires { IsGood (state self.old) }
        ensures step { Steps result (taken (state self.old)
            (attribute_step (context (state self.old)) name.now value.now)) (state self.new) }
    {
        if !self.follows {
            return Err(self.bad(BAD_LINE));
        }
        match self.find_attribute(name) {
            Some(found) => self.known_attribute(found.0, found.1, value),
            None => self.any_attribute(alloc, name, value),
        }
    }

    /// A node with the name of an attribute that is written so, and the local part of that name;
    /// none where no such node is known, or where the attribute is a declaration.
    #[inline(always)]
    fn find_attribute(&self, written: &str) -> Option<(Node, &'a str)>
        requires { 0 < length self.now.around.items }
        ensures named { IfSome result (λ found. IsNamed self.now.tree (NodeName.Known found.0)) }
        ensures same { IfSome result (λ found. IsAttribute written.now
            (scope_of (reverse self.now.around.items))
            (full_name self.now.tree (NodeName.Known found.0)) found.1.now) }
    {
        match self.around.as_slice().split_last() {
            Some((element, _)) => self
                .known
                .find_attribute(written, &self.tree, &element.scope),
            None => unreachable!(),
        }
    }

    /// Takes an attribute or a declaration, whatever its name is.
    #[inline(never)]
    #[tactic(auto, unfolding(crate::specs::steps::Lines::attribute_step))]
    fn any_attribute(&mut self, alloc: Global, name: &'a str, value: &str) -> Result<(), BuildFault>
        requires good { IsGood (state self.old) }
        requires follows { self.old.follows ≡ true }
        ensures step { Steps result (taken (state self.old)
            (attribute_step (context (state self.old)) name.now value.now)) (state self.new) }
    {
        match self.known.read(name) {
            Some(read) => self.written(alloc, &read, value),
            None => Err(self.bad(BAD_NAME)),
        }
    }

    /// Takes an attribute or a declaration of a name that is a QName.
    fn written(&mut self, alloc: Global, name: &ReadName<'a>, value: &str) -> Result<(), BuildFault>
        requires good { IsGood (state self.old) }
        requires follows { self.old.follows ≡ true }
        ensures step { Steps result (taken (state self.old)
            (written_step (context (state self.old)) self.old.seen value.now
            (parts_of name.now) (declared_prefix (parts_of name.now))))
            (state self.new) }
    {
        match declared_prefix(name.prefix, name.local) {
            Some(declared) => {
                self.known.remember_declaration(name.written)?;
                self.declaration(alloc, declared, value)
            }
            None => self.plain(alloc, name, value),
        }
    }

    /// Takes a declaration, which is no node.
    #[inline(never)]
    #[tactic(auto, unfolding(crate::specs::steps::Lines::declaration_step))]
    fn declaration(&mut self, alloc: Global, prefix: &'a str, uri: &str) -> Result<(), BuildFault>
        requires { self.old.follows ≡ true }
        ensures step { Steps result (taken (state self.old)
            (declaration_step (context (state self.old)) self.old.seen uri.now prefix.now))
            (state self.new) }
    {
        if !self.seen.insert(declaration_name(alloc, prefix)?)? {
            return Err(self.bad(DOUBLE_ATTRIBUTE));
        }
        if is_bad_binding(prefix, uri) {
            return Err(self.bad(BAD_NAMESPACE));
        }
        Ok(())
    }

    /// Takes an attribute that is a node.
    #[tactic(auto, using(crate::proofs::NameLemmas::attribute_local), unfolding(crate::specs::steps::Lines::plain_step))]
    fn plain(&mut self, alloc: Global, name: &ReadName<'a>, value: &str) -> Result<(), BuildFault>
        requires good { IsGood (state self.old) }
        requires follows { self.old.follows ≡ true }
        ensures step { Steps result (taken (state self.old)
            (plain_step (context (state self.old)) self.old.seen value.now (parts_of name.now)))
            (state self.new) }
    {
        match self.attribute_name(alloc, name)? {
            Some(full) => self.new_attribute(full, name, value),
            None => Err(self.bad(UNBOUND_PREFIX)),
        }
    }

    /// The name of an attribute in the innermost open element; none where its prefix is not bound.
    fn attribute_name(&self, alloc: Global, name: &ReadName<'a>) -> Result<Option<Name>, AllocError>
        requires { 0 < length self.now.around.items }
        ensures { IfOk result (λ found. found ≡ attribute_name
            (scope_of (reverse self.now.around.items)) (parts_of name.now)) }
    {
        match self.around.as_slice().split_last() {
            Some((element, _)) => element.scope.attribute_name(alloc, name.prefix, name.local),
            None => unreachable!(),
        }
    }

    /// Takes an attribute with the name of a node, of which this is the local part.
    fn known_attribute(&mut self, like: Node, local: &'a str, value: &str) -> Result<(), BuildFault>
        requires good { IsGood (state self.old) }
        requires follows { self.old.follows ≡ true }
        requires named { IsNamed self.old.tree (NodeName.Known like) }
        requires local { (full_name self.old.tree (NodeName.Known like)).local ≡ local.now }
        ensures step { Steps result (taken (state self.old)
            (named_step (context (state self.old)) self.old.seen value.now
            (full_name self.old.tree (NodeName.Known like)))) (state self.new) }
    {
        if !self.seen.insert(expanded_like(&self.tree, like, local)?)? {
            return Err(self.bad(DOUBLE_ATTRIBUTE));
        }
        if self.lines.len() >= MOST_NODES {
            return Err(self.bad(TOO_LARGE));
        }
        put_attribute_like(&mut self.tree, self.around.as_slice(), like, value)?;
        self.lines.push(self.line)?;
        Ok(())
    }

    /// Takes an attribute of a new name.
    fn new_attribute(
        &mut self,
        full: Name,
        name: &ReadName<'a>,
        value: &str,
    ) -> Result<(), BuildFault>
        requires good { IsGood (state self.old) }
        requires follows { self.old.follows ≡ true }
        requires local { full.local ≡ (parts_of name.now).local }
        ensures step { Steps result (taken (state self.old)
            (named_step (context (state self.old)) self.old.seen value.now full))
            (state self.new) }
    {
        if !self.seen.insert(expanded_name(&full, name.local)?)? {
            return Err(self.bad(DOUBLE_ATTRIBUTE));
        }
        if self.lines.len() >= MOST_NODES {
            return Err(self.bad(TOO_LARGE));
        }
        let node = put_attribute(&mut self.tree, self.around.as_slice(), full, value)?;
        self.lines.push(self.line)?;
        self.known.remember(name.written, node, false)?;
        Ok(())
    }
}

/// The expanded name of a declaration.
fn declaration_name(alloc: Global, prefix: &str) -> Result<Expanded<'_>, AllocError>
    ensures { IfOk result (λ name. name ≡ declaration_name prefix.now) }
{
    Ok(Expanded {
        uri: NameText::of(alloc, XMLNS_URI)?,
        local: LocalPart::of(prefix),
    })
}

/// The expanded name of a node, of which this is the local part.
fn expanded_like<'a>(tree: &Tree, like: Node, local: &'a str) -> Result<Expanded<'a>, AllocError>
    requires named { IsNamed tree.now (NodeName.Known like) }
    requires local { (full_name tree.now (NodeName.Known like)).local ≡ local.now }
    ensures { IfOk result
        (λ found. found ≡ expanded (full_name tree.now (NodeName.Known like))) }
{
    match tree.name(like) {
        Some(name) => expanded_name(name, local),
        None => unreachable!(),
    }
}

/// A name without the prefix that it is written with. Its local part is borrowed from where it is
/// written.
fn expanded_name<'a>(name: &Name, local: &'a str) -> Result<Expanded<'a>, AllocError>
    requires { name.now.local ≡ local.now }
    ensures { IfOk result (λ found. found ≡ expanded name.now) }
{
    Ok(Expanded {
        uri: name.uri.copy()?,
        local: LocalPart::of(local),
    })
}

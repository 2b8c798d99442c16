//! Lines that start and end an element.

ghost use Rattle.std.specs.Prelude.{◌≡◌, ◌+◌, ◌≤◌, ◌∷◌, ◌++◌, true, length, map, reverse, IfOk};
ghost use Rattle.std.specs.Prelude.{OnOk};
ghost use Rattle.std.specs.List.{range_with_len};
ghost use Rattle.xs_pyx.specs.Row.{rows_of};
ghost use Rattle.xs_build.specs.steps.Lines.{scope_of, innermost, start_step, end_step};
ghost use Rattle.xs_build.specs.steps.Lines.{named_start};
ghost use Rattle.xs_build.specs.Nodes.{element, spaces};
ghost use Rattle.xs_build.specs.steps.Names.{Finds, IsNamed, Resolves, full_name};
ghost use Rattle.xs_build.specs.steps.State.{entered, state, context, moved, Steps};
ghost use Rattle.xs_tree.specs.Limits.{most_nodes};
ghost use Rattle.xs_build.specs.Namespaces.{element_name, scope_with};
ghost use Rattle.xs_build.specs.steps.Invariant.{IsGood, IsWell, HasBindings};
ghost use Rattle.xs_build.specs.Start.{declarations};
ghost use Rattle.xs_build.specs.steps.Known.{parts_of};
ghost use Rattle.xs_build.specs.steps.Views.{bindings_of};

use crate::builder::Builder;
use crate::fault::{BAD_NAME, BuildFault, TOO_LARGE, UNBALANCED, UNBOUND_PREFIX};
use crate::known::{NodeName, ReadName};
use crate::nodes::put_element;
use crate::opened::{Opened, WrittenName, is_innermost, is_inside};
use crate::scope::{Declared, Scope};
use crate::start_tag::declarations;
use std::alloc::{AllocError, Global};
use xs_tree::MOST_NODES;

impl<'a> Builder<'a> {
    /// Takes the start of an element, behind which `rest` stands.
    #[inline(always)]
    #[tactic(auto, unfolding(crate::specs::steps::Lines::start_step))]
    pub fn start(&mut self, alloc: Global, name: &'a str, rest: &[u8]) -> Result<(), BuildFault>
        requires good { IsGood (state self.old) }
        ensures step { Steps result (moved (state self.old)
            (start_step (context (state self.old)) name.now (rows_of rest.now)))
            (state self.new) }
    {
        if self.begun && !is_inside(self.around.as_slice()) {
            return Err(self.bad(UNBALANCED));
        }
        let declared = declarations(alloc, rest)?;
        let is_same = declared.is_empty() && is_inside(self.around.as_slice());
        let scope = self.scope_inside(alloc, declared)?;
        self.start_in(alloc, name, scope, is_same)
    }

    /// Takes the start of an element in which these bindings are in force. `is_same` only where
    /// they are those of the element around it.
    #[inline(always)]
    fn start_in(
        &mut self,
        alloc: Global,
        name: &'a str,
        scope: Scope,
        is_same: bool,
    ) -> Result<(), BuildFault>
        requires good { IsGood (state self.old) }
        requires same { is_same ≡ true → HasBindings (state self.old).around scope }
        ensures step { Steps result (moved (state self.old)
            (named_start (context (state self.old)) name.now scope)) (state self.new) }
    {
        let full = self.name_in(alloc, &scope, name)?;
        if self.lines.len() + scope.len() >= MOST_NODES {
            return Err(self.bad(TOO_LARGE));
        }
        let written = WrittenName::of(name);
        self.enter(alloc, written, full, scope, is_same)?;
        Ok(())
    }

    /// The bindings in force in an element that declares this.
    #[inline(always)]
    fn scope_inside(&self, alloc: Global, declared: Vec<Declared>) -> Result<Scope, AllocError>
        ensures { IfOk result (λ scope. scope ≡ scope_with (bindings_of declared)
            (scope_of (reverse self.now.around.items))) }
    {
        match self.around.as_slice().split_last() {
            Some((element, _)) => element.scope.with(alloc, declared),
            None => Scope::outermost(alloc)?.with(alloc, declared),
        }
    }

    /// The name of an element that is written so: that of a node that has it, where one is known.
    #[inline(always)]
    fn name_in(
        &self,
        alloc: Global,
        scope: &Scope,
        written: &'a str,
    ) -> Result<NodeName, BuildFault>
        ensures { Finds result self.now.tree scope.now written.now self.now.line }
    {
        if let Some(like) = self.known.find_element(written, &self.tree, scope) {
            return Ok(NodeName::Known(like));
        }
        self.new_name(alloc, scope, written)
    }

    /// The name of an element that is written so, made anew.
    #[inline(never)]
    fn new_name(
        &self,
        alloc: Global,
        scope: &Scope,
        written: &'a str,
    ) -> Result<NodeName, BuildFault>
        ensures { Finds result self.now.tree scope.now written.now self.now.line }
    {
        match self.known.read(written) {
            Some(name) => self.resolved(alloc, scope, &name),
            None => Err(self.bad(BAD_NAME)),
        }
    }

    /// The name that this is for an element.
    fn resolved(
        &self,
        alloc: Global,
        scope: &Scope,
        name: &ReadName<'_>,
    ) -> Result<NodeName, BuildFault>
        ensures { Resolves result self.now.tree
            (element_name scope.now (parts_of name.now)) self.now.line }
    {
        match scope.element_name(alloc, name.prefix, name.local)? {
            Some(name) => Ok(NodeName::New(name)),
            None => Err(self.bad(UNBOUND_PREFIX)),
        }
    }

    /// Adds an element, which is the innermost open one from then on. `is_same` only where its
    /// bindings are those of the element around it.
    #[inline(always)]
    fn enter(
        &mut self,
        alloc: Global,
        name: WrittenName<'a>,
        full: NodeName,
        scope: Scope,
        is_same: bool,
    ) -> Result<(), AllocError>
        requires good { IsGood (state self.old) }
        requires same { is_same ≡ true → HasBindings (state self.old).around scope }
        requires named { IsNamed self.old.tree full }
        requires room { length self.old.lines.items + 1 + length scope ≤ most_nodes }
        ensures entered { OnOk result (state self.new
            ≡ entered (state self.old) name.entry (full_name self.old.tree full) scope) }
    {
        self.end_text()?;
        let is_known = full.is_known();
        let around = self.around.as_slice();
        let node = put_element(&mut self.tree, alloc, around, full, &scope, is_same)?;
        self.known.remember(name.as_str(), node, is_known)?;
        self.lines.push(self.line)?;
        push_lines(&mut self.lines, self.line, scope.len())?;
        self.around.push(Opened { name, node, scope })?;
        self.seen.clear(alloc);
        self.follows = true;
        self.begun = true;
        Ok(())
    }

    /// Takes the end of an element.
    #[inline(always)]
    #[tactic(auto, unfolding(crate::specs::steps::Lines::end_step))]
    pub fn end(&mut self, name: &str) -> Result<(), BuildFault>
        requires { IsGood (state self.old) }
        ensures step { Steps result (moved (state self.old)
            (end_step (context (state self.old)) name.now)) (state self.new) }
    {
        if !is_innermost(name, self.around.as_slice()) {
            return Err(self.bad(UNBALANCED));
        }
        self.end_text()?;
        let _ = self.around.pop();
        self.follows = false;
        Ok(())
    }
}

/// Adds the line of this many nodes.
#[inline(always)]
fn push_lines(lines: &mut Vec<u32>, line: u32, count: usize) -> Result<(), AllocError>
    ensures { OnOk result (lines.new.items ≡ lines.old.items ++ map (λ _. line)
        (range_with_len 0 count)) }
{
    for _place in 0..count {
        lines.push(line)?;
    }
    Ok(())
}

//! A tree that grows by one line after the other.

ghost use Rattle.std.specs.Prelude.{◌≡◌, ◌+◌, ◌<◌, IfOk, IsTrue, OnOk, false, length};
ghost use Rattle.xs_pyx.specs.Row.{rows_of};
ghost use Rattle.xs_pyx.specs.Reading.{begins_line, data_of, line_of, name_in, value_in};
ghost use Rattle.xs_pyx.specs.Views.{has_backslash, line_shown, IsReadable};
ghost use Rattle.xs_build.specs.steps.Rest.{concluded, Concludes};
ghost use Rattle.xs_build.specs.steps.Invariant.{IsGood, IsWell};
ghost use Rattle.xs_build.specs.Results.{Builds};
ghost use Rattle.xs_build.specs.steps.Lines.{attribute_step, instruction_step};
ghost use Rattle.xs_build.specs.steps.State.{state, initial, stepped, ended, next_line, Steps};
ghost use Rattle.xs_build.specs.steps.State.{context, moved, spoken, taken};

use crate::document::Built;
use crate::fault::{BuildFault, NO_ROOT, TRUNCATED};
use crate::known::KnownNames;
use crate::nodes::put_text;
use crate::opened::{Opened, is_inside};
use crate::pending_text::PendingText;
use crate::tag_names::TagNames;
use std::alloc::{AllocError, Global};
use xs_pyx::{LineView, plain_attribute, plain_text};
use xs_tree::Tree;

/// What was read so far.
#[derive(Drop)]
pub struct Builder<'a> {
    /// The nodes, except the text before the next line.
    pub tree: Tree,
    /// The line of each node, also of the text before the next line.
    pub lines: Vec<u32>,
    /// The text before the next line, which is no node yet; empty where there is none.
    pub text: PendingText<'a>,
    /// The elements that are open, the innermost last.
    pub around: Vec<Opened<'a>>,
    /// The names that were read before.
    pub known: KnownNames<'a>,
    /// The names of the attributes of the element that began last.
    pub seen: TagNames<'a>,
    /// Whether an attribute may follow.
    pub follows: bool,
    /// Whether the top element has begun.
    pub begun: bool,
    /// The number of the next line.
    pub line: u32,
}

impl<'a> Builder<'a> {
    /// Before the first line.
    pub fn new(alloc: Global) -> Result<Builder<'a>, AllocError>
        ensures start { IfOk result (λ builder. state builder ≡ initial) }
    {
        Ok(Builder {
            tree: Tree::new(alloc)?,
            lines: vec![in alloc; 0]?,
            text: PendingText::new(alloc),
            around: Vec::new(alloc),
            known: KnownNames::new(alloc)?,
            seen: TagNames::new(alloc),
            follows: false,
            begun: false,
            line: 1,
        })
    }

    /// A fault of the next line.
    pub fn bad(&self, number: u8) -> BuildFault
        ensures { result ≡ BuildFault.Bad number self.now.line }
    {
        BuildFault::Bad {
            number,
            line: self.line,
        }
    }

    /// Makes a node of the text before the next line.
    #[inline(always)]
    pub fn end_text(&mut self) -> Result<(), AllocError>
        requires { IsGood (state self.old) }
        ensures ended { OnOk result (state self.new ≡ ended (state self.old)) }
        ensures well { OnOk result (IsWell (state self.new).records (state self.new).around) }
        ensures counted { OnOk result (length self.new.tree ≡ length self.new.lines.items) }
    {
        put_text(&mut self.tree, self.around.as_slice(), self.text.as_str())?;
        self.text.clear();
        Ok(())
    }

    /// Takes the next line, behind which `rest` stands.
    #[inline(always)]
    pub fn take(&mut self, alloc: Global, view: LineView<'a>, rest: &[u8]) -> Result<(), BuildFault>
        requires good { IsGood (state self.old) }
        requires readable { IsReadable view }
        ensures step { Steps result
            (stepped (state self.old) (line_shown view.entry) (rows_of rest.now)) (state self.new) }
    {
        match view {
            LineView::Start(name) => self.start(alloc, name, rest),
            LineView::Attr { name, value } => self.attribute_line(alloc, name, value),
            LineView::Chars(text) => self.text_line(alloc, text),
            LineView::End(name) => self.end(name),
            LineView::Pi { target, value } => self.instruction_line(alloc, target, value),
            LineView::Comment(text) => self.comment_line(alloc, text),
        }
    }

    /// Takes the next line, of which these are the first byte and what stands after it, in which no
    /// backslash is. `rest` stands behind it.
    #[inline(always)]
    pub fn take_plain(
        &mut self,
        alloc: Global,
        kind: u8,
        text: &'a str,
        rest: &[u8],
    ) -> Result<(), BuildFault>
        requires good { IsGood (state self.old) }
        requires begins { IsTrue (begins_line kind) }
        requires plain { has_backslash text.now ≡ false }
        ensures step { Steps result
            (stepped (state self.old) (line_of kind text.now) (rows_of rest.now)) (state self.new) }
    {
        match kind {
            b'(' => self.start(alloc, text, rest),
            b'A' => self.take_attribute(alloc, text),
            b'-' => self.take_text(text),
            b')' => self.end(text),
            b'?' => self.take_instruction(alloc, text),
            b'C' => self.comment(plain_text(text)),
            _ => unreachable!(),
        }
    }

    /// Takes an attribute line without a backslash, after its first byte.
    #[inline(always)]
    fn take_attribute(&mut self, alloc: Global, text: &'a str) -> Result<(), BuildFault>
        requires good { IsGood (state self.old) }
        requires plain { has_backslash text.now ≡ false }
        ensures step { Steps result (taken (state self.old) (attribute_step
            (context (state self.old)) (name_in text.now) (data_of (value_in text.now))))
            (state self.new) }
    {
        let (name, value) = plain_attribute(text);
        self.attribute(alloc, name, value)
    }

    /// Takes a line of text without a backslash, after its first byte.
    #[inline(always)]
    fn take_text(&mut self, text: &'a str) -> Result<(), BuildFault>
        requires plain { has_backslash text.now ≡ false }
        ensures step { Steps result (spoken (state self.old) (data_of text.now)) (state self.new) }
    {
        let text = plain_text(text);
        self.chars(text, Some(text))
    }

    /// Takes a line of an instruction without a backslash, after its first byte.
    fn take_instruction(&mut self, alloc: Global, text: &str) -> Result<(), BuildFault>
        requires good { IsGood (state self.old) }
        requires plain { has_backslash text.now ≡ false }
        ensures step { Steps result (moved (state self.old)
            (instruction_step (context (state self.old)) self.old.line (name_in text.now)
            (data_of (value_in text.now)))) (state self.new) }
    {
        let (target, value) = plain_attribute(text);
        self.instruction(alloc, target, value)
    }

    /// The tree at the end of the lines.
    pub fn finish(mut self) -> Result<Built, BuildFault>
        requires { IsGood (state self) }
        ensures document { Builds result (concluded (state self.entry)) }
        ensures each { IfOk result (λ built. length built.lines.items ≡ length built.tree) }
    {
        self.conclude()?;
        Ok(Built {
            tree: self.tree,
            lines: self.lines,
        })
    }

    /// Makes a node of the text before the end of the lines, where they may end.
    #[tactic(auto, unfolding(crate::specs::steps::Rest::concluded))]
    fn conclude(&mut self) -> Result<(), BuildFault>
        requires { IsGood (state self.old) }
        ensures document { Concludes result (concluded (state self.old)) (state self.new) }
        ensures each { OnOk result (length self.new.lines.items ≡ length self.new.tree) }
    {
        let last = self.line - 1;
        if !self.begun {
            return Err(BuildFault::Bad {
                number: NO_ROOT,
                line: last,
            });
        }
        if is_inside(self.around.as_slice()) {
            return Err(BuildFault::Bad {
                number: TRUNCATED,
                line: last,
            });
        }
        put_text(&mut self.tree, self.around.as_slice(), self.text.as_str())?;
        Ok(())
    }
}

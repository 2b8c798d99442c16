//! Lines that are texts, processing instructions and comments.

ghost use Rattle.std.specs.Prelude.{◌≡◌, false, [], IfSome, reverse};
ghost use Rattle.xs_build.specs.steps.Lines.{gives, past, instruction_step, comment_step};
ghost use Rattle.xs_build.specs.steps.Invariant.{IsGood};
ghost use Rattle.xs_build.specs.steps.State.{state, context, moved, spoken, spoken_inside};
ghost use Rattle.xs_build.specs.steps.State.{spoken_first, Steps};

use crate::builder::Builder;
use crate::fault::{BAD_NAME, BuildFault, TOO_LARGE, UNBALANCED};
use crate::nodes::{put_comment, put_instruction};
use crate::opened::is_inside;
use crate::qnames::{is_target, is_white, is_xml};
use std::alloc::Global;
use xs_tree::MOST_NODES;

impl<'a> Builder<'a> {
    /// Takes a text, which is `line` where the document holds it as it is.
    #[inline(always)]
    #[tactic(auto, unfolding(crate::specs::steps::State::spoken))]
    pub fn chars(&mut self, text: &str, line: Option<&'a str>) -> Result<(), BuildFault>
        requires same { IfSome line (λ line. line.now ≡ text.now) }
        ensures step { Steps result (spoken (state self.old) text.now) (state self.new) }
    {
        self.follows = false;
        if is_inside(self.around.as_slice()) {
            return self.text_inside(text, line);
        }
        if !is_white(text) {
            return Err(self.bad(UNBALANCED));
        }
        Ok(())
    }

    /// Takes a text in an element.
    #[inline(always)]
    fn text_inside(&mut self, text: &str, line: Option<&'a str>) -> Result<(), BuildFault>
        requires follows { self.old.follows ≡ false }
        requires same { IfSome line (λ line. line.now ≡ text.now) }
        ensures step { Steps result (spoken_inside (state self.old) text.now) (state self.new) }
    {
        if self.text.is_empty() && !text.is_empty() {
            return self.first_text(text, line);
        }
        self.text.push(text)?;
        Ok(())
    }

    /// Takes the first text of a node.
    #[inline(always)]
    fn first_text(&mut self, text: &str, line: Option<&'a str>) -> Result<(), BuildFault>
        requires follows { self.old.follows ≡ false }
        requires quiet { self.old.text ≡ [] }
        requires same { IfSome line (λ line. line.now ≡ text.now) }
        ensures step { Steps result (spoken_first (state self.old) text.now) (state self.new) }
    {
        if self.lines.len() >= MOST_NODES {
            return Err(self.bad(TOO_LARGE));
        }
        self.lines.push(self.line)?;
        self.text.begin(text, line)?;
        Ok(())
    }

    /// Takes a processing instruction. The XML declaration is none.
    #[tactic(auto, unfolding(crate::specs::steps::Lines::instruction_step))]
    pub fn instruction(&mut self, alloc: Global, target: &str, text: &str) -> Result<(), BuildFault>
        requires { IsGood (state self.old) }
        ensures step { Steps result (moved (state self.old)
            (instruction_step (context (state self.old)) self.old.line target.now text.now))
            (state self.new) }
    {
        if self.line == 1 && is_xml(target) {
            return self.declare_xml();
        }
        if !is_target(target) {
            return Err(self.bad(BAD_NAME));
        }
        if self.lines.len() >= MOST_NODES {
            return Err(self.bad(TOO_LARGE));
        }
        self.end_text()?;
        let around = self.around.as_slice();
        put_instruction(&mut self.tree, alloc, around, target, text)?;
        self.lines.push(self.line)?;
        self.follows = false;
        Ok(())
    }

    /// Takes an XML declaration.
    fn declare_xml(&mut self) -> Result<(), BuildFault>
        requires { IsGood (state self.old) }
        ensures step { Steps result (moved (state self.old)
            (gives [] (past (context (state self.old)) (reverse self.old.around.items) 0)))
            (state self.new) }
    {
        self.end_text()?;
        self.follows = false;
        Ok(())
    }

    /// Takes a comment.
    #[tactic(auto, unfolding(crate::specs::steps::Lines::comment_step))]
    pub fn comment(&mut self, text: &str) -> Result<(), BuildFault>
        requires { IsGood (state self.old) }
        ensures step { Steps result (moved (state self.old)
            (comment_step (context (state self.old)) text.now)) (state self.new) }
    {
        if self.lines.len() >= MOST_NODES {
            return Err(self.bad(TOO_LARGE));
        }
        self.end_text()?;
        put_comment(&mut self.tree, self.around.as_slice(), text)?;
        self.lines.push(self.line)?;
        self.follows = false;
        Ok(())
    }
}

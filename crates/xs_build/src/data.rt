//! Lines with data, which is read where it stands unless it has escapes.

ghost use Rattle.std.specs.Prelude.{◌≡◌, IfOk, string_bytes};
ghost use Rattle.xs_pyx.specs.Views.{data_shown, IsReadableData};
ghost use Rattle.xs_build.specs.steps.Lines.{attribute_step, instruction_step, comment_step};
ghost use Rattle.xs_build.specs.steps.Invariant.{IsGood};
ghost use Rattle.xs_build.specs.steps.State.{state, context, taken, moved, spoken, Steps};

use crate::builder::Builder;
use crate::fault::BuildFault;
use std::alloc::{AllocError, Global};
use xs_pyx::Data;

impl<'a> Builder<'a> {
    /// Takes an attribute or a declaration.
    pub fn attribute_line(
        &mut self,
        alloc: Global,
        name: &'a str,
        value: Data<'_>,
    ) -> Result<(), BuildFault>
        requires good { IsGood (state self.old) }
        requires readable { IsReadableData value }
        ensures step { Steps result (taken (state self.old)
            (attribute_step (context (state self.old)) name.now (data_shown value.entry)))
            (state self.new) }
    {
        match value {
            Data::Plain(value) => self.attribute(alloc, name, value),
            Data::Escaped(_) => {
                let value = read_out(alloc, value)?;
                self.attribute(alloc, name, value.as_str())
            }
        }
    }

    /// Takes a text.
    #[inline(always)]
    pub fn text_line(&mut self, alloc: Global, text: Data<'a>) -> Result<(), BuildFault>
        requires readable { IsReadableData text }
        ensures step { Steps result
            (spoken (state self.old) (data_shown text.entry)) (state self.new) }
    {
        match text {
            Data::Plain(text) => self.chars(text, Some(text)),
            Data::Escaped(_) => {
                let text = read_out(alloc, text)?;
                self.chars(text.as_str(), None)
            }
        }
    }

    /// Takes a processing instruction.
    pub fn instruction_line(
        &mut self,
        alloc: Global,
        target: &str,
        text: Data<'_>,
    ) -> Result<(), BuildFault>
        requires good { IsGood (state self.old) }
        requires readable { IsReadableData text }
        ensures step { Steps result (moved (state self.old)
            (instruction_step (context (state self.old)) self.old.line target.now
            (data_shown text.entry))) (state self.new) }
    {
        match text {
            Data::Plain(text) => self.instruction(alloc, target, text),
            Data::Escaped(_) => {
                let text = read_out(alloc, text)?;
                self.instruction(alloc, target, text.as_str())
            }
        }
    }

    /// Takes a comment.
    pub fn comment_line(&mut self, alloc: Global, text: Data<'_>) -> Result<(), BuildFault>
        requires good { IsGood (state self.old) }
        requires readable { IsReadableData text }
        ensures step { Steps result (moved (state self.old)
            (comment_step (context (state self.old)) (data_shown text.entry))) (state self.new) }
    {
        match text {
            Data::Plain(text) => self.comment(text),
            Data::Escaped(_) => {
                let text = read_out(alloc, text)?;
                self.comment(text.as_str())
            }
        }
    }
}

/// The data that is written so, in memory of its own.
pub fn read_out(alloc: Global, written: Data<'_>) -> Result<String, AllocError>
    requires { IsReadableData written }
    ensures { IfOk result (λ text. string_bytes text ≡ data_shown written.entry) }
{
    let mut bytes = Vec::new(alloc);
    written.append_to(&mut bytes)?;
    match String::from_utf8(bytes) {
        Ok(text) => Ok(text),
        Err(_) => unreachable!(),
    }
}

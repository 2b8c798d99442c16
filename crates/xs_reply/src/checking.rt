//! Replies on the static faults of a stylesheet.

ghost use Rattle.std.specs.Prelude.{◌≡◌, ◌<◌, ◌⊎◌, IfOk, length};
ghost use Rattle.xs_modules.specs.Results.{modules_data};
ghost use Rattle.xs_modules.specs.Sound.{IsSound};
ghost use Rattle.xs_reply.specs.declared.status.TheConstants.{OK, REFUSED};
ghost use Rattle.xs_reply.specs.Answer.{refused_file};
ghost use Rattle.xs_reply.specs.Reply.{IsChecked, IsPlain, IsUnspent, IsWholeOrEmpty};
ghost use Rattle.xs_reply.specs.Run.{module_name};

use crate::reply::{Reply, faultless_reply, refused_reply};
use std::alloc::{AllocError, Global};
use xs_modules::Modules;
use xs_static::{StaticFault, first_fault};

/// The answer of a stylesheet that is only checked: its first static fault, or nothing.
pub fn check_reply(alloc: Global, modules: &Modules) -> Result<Reply, AllocError>
    requires { IsSound (modules_data modules.now) }
    ensures answer { IfOk result (IsChecked (modules_data modules.now)) }
    ensures status { IfOk result (λ reply.
        (reply.status ≡ OK) ⊎ (reply.status ≡ REFUSED)) }
    ensures ticks { IfOk result IsUnspent }
    ensures whole_only { IfOk result IsWholeOrEmpty }
{
    match first_fault(alloc, modules)? {
        Some(fault) => static_reply(alloc, modules, fault),
        None => Ok(faultless_reply(alloc)),
    }
}

/// A static fault, reported by the name of its module.
pub fn static_reply(
    alloc: Global,
    modules: &Modules,
    fault: StaticFault,
) -> Result<Reply, AllocError>
    requires { fault.«module» < length (modules_data modules.now) }
    ensures answer { IfOk result (IsPlain (refused_file fault.number
        (module_name (modules_data modules.now) fault.«module») fault.line)) }
    ensures status { IfOk result (λ reply. reply.status ≡ REFUSED) }
    ensures ticks { IfOk result IsUnspent }
    ensures whole_only { IfOk result IsWholeOrEmpty }
{
    let module = &modules.list[fault.module as usize];
    refused_reply(alloc, fault.number, &module.name, fault.line)
}

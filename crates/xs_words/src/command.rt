//! The command line of the program, for `clap`.

ghost use Rattle.std.specs.Prelude.{◌≡◌, IfOk, false};
ghost use Rattle.clap.specs.Words.{app_of, rule_of, with_rule};
ghost use Rattle.xs_words.specs.Command.{bare_command, command_line, flag, flags, inputs};
ghost use Rattle.xs_words.specs.Command.{limits, option, sizes};

use clap::{Arg, ArgAction, Command};
use std::alloc::{AllocError, Global};

/// An option with one value.
fn option<'a>(alloc: Global, name: &'a str) -> Arg<'a>
    ensures rule { rule_of result ≡ option name.entry.now }
    ensures local { result.global ≡ false }
{
    Arg::new(alloc, name).long(name)
}

/// An option without a value.
fn flag<'a>(alloc: Global, name: &'a str) -> Arg<'a>
    ensures rule { rule_of result ≡ flag name.entry.now }
    ensures local { result.global ≡ false }
{
    Arg::new(alloc, name).long(name).action(ArgAction::SetTrue)
}

/// All words that are no options.
fn inputs<'a>(alloc: Global) -> Arg<'a>
    ensures rule { rule_of result ≡ inputs }
    ensures local { result.global ≡ false }
{
    Arg::new(alloc, "inputs").num_args(0..)
}

/// The command without arguments: no word is the program's name, and `--help` is refused.
fn bare_command<'a>(alloc: Global) -> Command<'a>
    ensures { app_of result ≡ bare_command }
{
    Command::new(alloc, "xslt")
        .no_binary_name(true)
        .disable_help_flag(true)
}

/// One option with a value more.
fn with_option<'a>(
    alloc: Global,
    command: Command<'a>,
    name: &'a str,
) -> Result<Command<'a>, AllocError>
    ensures { IfOk result (λ made.
        app_of made ≡ with_rule (app_of command.entry) (option name.entry.now)) }
{
    command.arg(option(alloc, name))
}

/// One option without a value more.
fn with_flag<'a>(
    alloc: Global,
    command: Command<'a>,
    name: &'a str,
) -> Result<Command<'a>, AllocError>
    ensures { IfOk result (λ made.
        app_of made ≡ with_rule (app_of command.entry) (flag name.entry.now)) }
{
    command.arg(flag(alloc, name))
}

/// The command with the options that limit a run or name a tick of it.
fn with_limits<'a>(alloc: Global, command: Command<'a>) -> Result<Command<'a>, AllocError>
    ensures { IfOk result (λ made. app_of made ≡ limits (app_of command.entry)) }
{
    let command = with_option(alloc, command, "budget")?;
    let command = with_option(alloc, command, "max-events")?;
    let command = with_option(alloc, command, "at")?;
    Ok(command)
}

/// The command with the options that give a size.
fn with_sizes<'a>(alloc: Global, command: Command<'a>) -> Result<Command<'a>, AllocError>
    ensures { IfOk result (λ made. app_of made ≡ sizes (app_of command.entry)) }
{
    let command = with_option(alloc, command, "workers")?;
    let command = with_option(alloc, command, "grain")?;
    let command = with_option(alloc, command, "load")?;
    Ok(command)
}

/// The command with its flags.
fn with_flags<'a>(alloc: Global, command: Command<'a>) -> Result<Command<'a>, AllocError>
    ensures { IfOk result (λ made. app_of made ≡ flags (app_of command.entry)) }
{
    let command = with_flag(alloc, command, "stats")?;
    let command = with_flag(alloc, command, "profile")?;
    let command = with_flag(alloc, command, "stream")?;
    let command = with_flag(alloc, command, "check")?;
    Ok(command)
}

/// The program's command.
pub fn command_line<'a>(alloc: Global) -> Result<Command<'a>, AllocError>
    ensures { IfOk result (λ made. app_of made ≡ command_line) }
{
    let command = with_limits(alloc, bare_command(alloc))?;
    let command = with_sizes(alloc, command)?;
    let command = with_flags(alloc, command)?;
    let command = command.arg(inputs(alloc))?;
    Ok(command)
}

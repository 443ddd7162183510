// The program's commands, as `clap` is told of them.
ghost use Rattle.std.specs.Prelude.{◌≡◌, false, IfOk};
ghost use Rattle.clap.specs.Words.{app_of};
ghost use Rattle.clap.specs.declared.builder.command.Command.TheViews.{out-Command as fields_of};
ghost use Rattle.eleos_args.specs.Program.{program, settings, valued};

use clap::{Arg, Command};
use std::alloc::{AllocError, Global};

/// What a command's one value is called.
pub(crate) const VALUE: &str = "value";

/// The program with its commands, of which it needs one. It has no flag, and no help: `help` is an
/// unknown word.
pub(crate) fn program<'a>(alloc: Global) -> Result<Command<'a>, AllocError>
    ensures { IfOk result (λ command. app_of command ≡ program) }
{
    settings(alloc)
        .subcommand(Command::new(alloc, "run"))?
        .subcommand(Command::new(alloc, "replay"))?
        .subcommand(with_value(alloc, "check")?)?
        .subcommand(Command::new(alloc, "serve"))?
        .subcommand(Command::new(alloc, "gcm"))?
        .subcommand(with_value(alloc, "gen")?)?
        .subcommand(with_value(alloc, "work")?)
}

/// The program before it has a command.
fn settings<'a>(alloc: Global) -> Command<'a>
    ensures { app_of result ≡ settings }
{
    Command::new(alloc, "eleos")
        .no_binary_name(true)
        .disable_help_flag(true)
        .disable_help_subcommand(true)
        .subcommand_required(true)
}

/// A command that needs one value.
fn with_value<'a>(alloc: Global, name: &'a str) -> Result<Command<'a>, AllocError>
    ensures app { IfOk result (λ command. app_of command ≡ valued name.entry.now) }
    ensures local { IfOk result (λ command. (fields_of command).has_globals ≡ false) }
{
    Command::new(alloc, name).arg(Arg::new(alloc, VALUE).required(true))
}

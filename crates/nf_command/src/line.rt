//! The command line as `clap` knows it.
ghost use Rattle.std.specs.Prelude.{◌≡◌, false, IfOk};
ghost use Rattle.clap.specs.Simple.{app_of};
ghost use Rattle.clap.specs.declared.builder.command.Command.TheViews.{out-Command as fields_of};
ghost use Rattle.nf_command.specs.Line.{command_line, sample_line, solving_line};

use clap::{Arg, Command};
use std::alloc::{AllocError, Global};

/// Five subcommands: `run`, `check`, `import` and `export` alone, and `sample` with four words after it.
pub(crate) fn command_line<'a>(alloc: Global) -> Result<Command<'a>, AllocError>
    ensures { IfOk result (λ c. app_of c ≡ command_line) }
{
    solving_line(alloc)?
        .subcommand(sample_line(alloc)?)?
        .subcommand(Command::new(alloc, "import"))?
        .subcommand(Command::new(alloc, "export"))
}

// `run` and `check`. No name of a program stands before the words, and `help` is no command.
fn solving_line<'a>(alloc: Global) -> Result<Command<'a>, AllocError>
    ensures shape { IfOk result (λ c. app_of c ≡ solving_line) }
    ensures local { IfOk result (λ c. (fields_of c).has_globals ≡ false) }
{
    Command::new(alloc, "netflow")
        .no_binary_name(true)
        .disable_help_subcommand(true)
        .subcommand_required(true)
        .subcommand(Command::new(alloc, "run"))?
        .subcommand(Command::new(alloc, "check"))
}

// `sample` and its four words.
fn sample_line<'a>(alloc: Global) -> Result<Command<'a>, AllocError>
    ensures shape { IfOk result (λ c. app_of c ≡ sample_line) }
    ensures local { IfOk result (λ c. (fields_of c).has_globals ≡ false) }
{
    Command::new(alloc, "sample")
        .arg(Arg::new(alloc, "SEED"))?
        .arg(Arg::new(alloc, "NODES"))?
        .arg(Arg::new(alloc, "ARCS"))?
        .arg(Arg::new(alloc, "CONS"))
}

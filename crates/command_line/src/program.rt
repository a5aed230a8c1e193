//! The command line as a command of `clap`.

ghost use Rattle.std.specs.Prelude.{◌≡◌, IfOk, false};
ghost use Rattle.clap.specs.Words.{app_of, rule_of};
ghost use Rattle.clap.specs.declared.builder.command.Command.TheViews.{out-Command as fields_of};
ghost use Rattle.command_line.specs.Program.{bare, check, generate, option, positional, program as the_program, run, sessions as the_sessions};

use clap::{Arg, ArgAction, Command};
use std::alloc::{AllocError, Global};

/// A word that has to stand there.
fn word<'a>(alloc: Global, name: &'a str) -> Arg<'a>
    ensures rule { rule_of result ≡ positional name.entry.now }
    ensures local { result.global ≡ false }
{
    Arg::new(alloc, name).required(true)
}

/// One word or more.
fn sessions<'a>(alloc: Global) -> Arg<'a>
    ensures rule { rule_of result ≡ the_sessions }
    ensures local { result.global ≡ false }
{
    word(alloc, "session").action(ArgAction::Append)
}

/// Two dashes and the name, and a word behind it.
fn named<'a>(alloc: Global, name: &'a str) -> Arg<'a>
    ensures rule { rule_of result ≡ option name.entry.now }
    ensures local { result.global ≡ false }
{
    Arg::new(alloc, name).long(name)
}

fn run_command<'a>(alloc: Global) -> Result<Command<'a>, AllocError>
    ensures app { IfOk result (λ c. app_of c ≡ run) }
    ensures local { IfOk result (λ c. (fields_of c).has_globals ≡ false) }
{
    let command = Command::new(alloc, "run")
        .arg(word(alloc, "root"))?
        .arg(named(alloc, "remote"))?
        .arg(named(alloc, "order"))?
        .arg(sessions(alloc))?;
    Ok(command)
}

fn gen_command<'a>(alloc: Global) -> Result<Command<'a>, AllocError>
    ensures app { IfOk result (λ c. app_of c ≡ generate) }
    ensures local { IfOk result (λ c. (fields_of c).has_globals ≡ false) }
{
    let command = Command::new(alloc, "gen")
        .arg(word(alloc, "root"))?
        .arg(word(alloc, "n"))?;
    Ok(command)
}

fn check_command<'a>(alloc: Global) -> Result<Command<'a>, AllocError>
    ensures app { IfOk result (λ c. app_of c ≡ check) }
    ensures local { IfOk result (λ c. (fields_of c).has_globals ≡ false) }
{
    let command = Command::new(alloc, "check")
        .arg(word(alloc, "root"))?
        .arg(word(alloc, "order"))?
        .arg(named(alloc, "remote"))?
        .arg(sessions(alloc))?;
    Ok(command)
}

fn bare_command<'a>(alloc: Global) -> Command<'a>
    ensures app { app_of result ≡ bare }
    ensures local { (fields_of result).has_globals ≡ false }
{
    Command::new(alloc, "pbstore")
        .no_binary_name(true)
        .disable_help_flag(true)
        .disable_help_subcommand(true)
        .disable_version_flag(true)
        .subcommand_required(true)
}

/// The whole program: three commands, without help and version.
pub fn program<'a>(alloc: Global) -> Result<Command<'a>, AllocError>
    ensures { IfOk result (λ c. app_of c ≡ the_program) }
{
    let run = run_command(alloc)?;
    let generate = gen_command(alloc)?;
    let check = check_command(alloc)?;
    let command = bare_command(alloc)
        .subcommand(run)?
        .subcommand(generate)?
        .subcommand(check)?;
    Ok(command)
}

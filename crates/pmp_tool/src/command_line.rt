//! The command line, as the crate `clap` reads it.

ghost use Rattle.std.specs.Prelude.{◌≡◌, map, IfOk, IfErr, string_bytes};
ghost use Rattle.clap.specs.Words.{HasKind, fault_of, new_app};
ghost use Rattle.pmp_tool.specs.Building.{IsBuilt, IsCommand, IsTaken};
ghost use Rattle.pmp_tool.specs.CommandLines.{command_app, commands_app, pmp_app, top_app, topic_app};

use crate::command_name::CommandName;
use crate::{help, topics};
use clap::{ArgMatches, Command, Error};
use std::alloc::{AllocError, Global};

/// Parses the program's words, those after its own name, with `clap`.
pub fn parse_words<'a>(alloc: Global, words: &'a [String]) -> Result<ArgMatches<'a>, Error>
    ensures ok { IfOk result (IsTaken (map string_bytes words.entry.now)) }
    ensures err { IfErr result (HasKind (fault_of pmp_app (map string_bytes words.entry.now))) }
{
    pmp(alloc)?.try_get_matches_from(words)
}

/// A command, if there was memory for all its parts.
type Built<'a> = Result<Command<'a>, AllocError>;

/// Returns the program, with its commands and its help topics.
fn pmp<'a>(alloc: Global) -> Built<'a>
    ensures { IsBuilt result pmp_app }
{
    commands(alloc)?
        .subcommand(topic(alloc, "script", topics::SCRIPT))?
        .subcommand(topic(alloc, "trace", topics::TRACE))?
        .subcommand(topic(alloc, "names", topics::NAMES))?
        .subcommand(topic(alloc, "rows", topics::ROWS))
}

/// Returns a help topic, whose text `help name` shows. As a command it is refused, with the same text if it is alone.
fn topic<'a>(alloc: Global, name: &'a str, text: &'a str) -> Command<'a>
    ensures { IsCommand result (topic_app name.entry.now) }
{
    Command::new(alloc, name)
        .hide(true)
        .arg_required_else_help(true)
        .override_help(text)
}

/// Returns the program, with a subcommand for each thing that it does.
fn commands<'a>(alloc: Global) -> Built<'a>
    ensures { IsBuilt result commands_app }
{
    let mut program = top(alloc)?;
    for name in CommandName::ALL {
        program = program.subcommand(command(alloc, name)?)?;
    }
    Ok(program)
}

/// Returns the program without its commands.
fn top<'a>(alloc: Global) -> Built<'a>
    ensures { IsBuilt result top_app }
{
    let program = named(alloc, "pmp", help::ABOUT, help::MORE)
        .version(help::VERSION)
        .no_binary_name(true)
        .subcommand_required(true)
        .arg_required_else_help(true);
    program.bin_name("pmp")
}

/// Returns a command with its arguments.
fn command<'a>(alloc: Global, name: CommandName) -> Built<'a>
    ensures { IsBuilt result (command_app name) }
{
    let (word, about, more) = name.texts();
    let mut command = named(alloc, word, about, more);
    let arguments = name.arguments();
    for argument in arguments {
        command = command.arg(argument.arg(alloc))?;
    }
    Ok(command)
}

/// Returns a command without words.
fn named<'a>(alloc: Global, name: &'a str, about: &'a str, more: &'a str) -> Command<'a>
    ensures { IsCommand result (new_app name.entry.now) }
{
    Command::new(alloc, name).about(about).after_help(more)
}

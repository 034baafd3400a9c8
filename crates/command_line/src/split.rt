// How `clap` splits the words of a command line.
ghost use Rattle.std.specs.Prelude.{◌≡◌, false, IfOk, IsOkAnd};
ghost use Rattle.clap.specs.Built.{AddsSubcommand};
ghost use Rattle.clap.specs.Simple.{app_of};
ghost use Rattle.clap.specs.Walk.{rule_of};
ghost use Rattle.clap.specs.declared.builder.command.Command.TheViews.{out-Command as fields_of};
ghost use Rattle.command_line.specs.CommandLine.{split_of, verb_in, value_in, given, argument as argument_rule, option as option_rule, needed_option as needed_rule, mkfs_app, run_app, tree_app, check_app, crash_app, work_app, weave_app, squirrel_app};
ghost use Rattle.command_line.specs.Job.{image_in};

use crate::words::Words;
use clap::error::ErrorKind;
use clap::{Arg, ArgAction, ArgMatches, Command};
use pm_trait::NoMemory;
use std::alloc::{AllocError, Global};
use std::marker::Model;

/// A command line, split: the name of a subcommand and what was found for its arguments, or none.
#[derive(Drop)]
pub struct Split<'a> {
    matches: Option<ArgMatches<'a>>,
}

impl<'a> Model for Split<'a> {
    ghost use Rattle.std.specs.Prelude.{List, Option, option_and_then};
    ghost use Rattle.clap.specs.Walk.{Row};
    ghost use Rattle.clap.specs.Simple.{subcommand_rows_of};
    ghost use Rattle.command_line.specs.CommandLine.{Word};

    ghost Value = { Option (Word × List Row) };

    ghost view = { λ split. option_and_then subcommand_rows_of split.matches };
}

impl<'a> Split<'a> {
    /// Splits the words, the first of them the program's name. `NoMemory` may come for any words.
    pub fn of(alloc: Global, words: &'a Words) -> Result<Split<'a>, NoMemory>
        ensures { IfOk result (λ split. split ≡ split_of words.now) }
    {
        let command = squirrel_command(alloc)?;
        match command.try_get_matches_from(words.as_slice()) {
            Ok(matches) => Ok(Split {
                matches: Some(matches),
            }),
            Err(error) if error.kind() == ErrorKind::OutOfMemory => Err(NoMemory),
            Err(_) => Ok(Split { matches: None }),
        }
    }

    /// The name of the subcommand.
    pub fn verb(&self) -> Option<&'a str>
        ensures { given result ≡ verb_in self.now }
    {
        let (verb, _) = self.matches.as_ref()?.subcommand()?;
        Some(verb)
    }

    /// The value of an argument or an option, where it is given.
    pub fn value(&self, id: &str) -> Option<&'a str>
        ensures { given result ≡ value_in id.now self.now }
    {
        let (_, found) = self.matches.as_ref()?.subcommand()?;
        found.get_str(id)
    }

    /// The value of IMAGE, which each subcommand has.
    pub fn image(&self) -> &'a str
        ensures { result.now ≡ image_in self.now }
    {
        self.value("IMAGE").unwrap_or("")
    }
}

// The whole command: one of its subcommands is needed, and there is no help and no version to ask for.
fn squirrel_command<'a>(alloc: Global) -> Result<Command<'a>, AllocError>
    ensures { IfOk result (λ command. app_of command ≡ squirrel_app) }
{
    let bare = Command::new(alloc, "squirrel")
        .subcommand_required(true)
        .disable_help_flag(true)
        .disable_help_subcommand(true)
        .disable_version_flag(true);
    let with_mkfs = with_job(bare, mkfs_command(alloc))?;
    let with_run = with_job(with_mkfs, run_command(alloc))?;
    let with_tree = with_job(with_run, tree_command(alloc))?;
    let with_check = with_job(with_tree, check_command(alloc))?;
    let with_crash = with_job(with_check, crash_command(alloc))?;
    let with_work = with_job(with_crash, work_command(alloc))?;
    with_job(with_work, weave_command(alloc))
}

// Adds a job's subcommand, where there was memory for it. It takes what may have failed, so that `command` has no early end at
// which a half-made command is dropped: each such drop would be proved by itself.
fn with_job<'a>(
    whole: Command<'a>,
    job: Result<Command<'a>, AllocError>,
) -> Result<Command<'a>, AllocError>
    ensures { IfOk result (λ command. IsOkAnd job.entry (λ added. AddsSubcommand whole.entry added command)) }
{
    whole.subcommand(job?)
}

fn mkfs_command<'a>(alloc: Global) -> Result<Command<'a>, AllocError>
    ensures app { IfOk result (λ command. app_of command ≡ mkfs_app) }
    ensures local { IfOk result (λ command. (fields_of command).has_globals ≡ false) }
{
    Command::new(alloc, "mkfs")
        .arg(argument(alloc, "IMAGE"))?
        .arg(argument(alloc, "PAGES"))
}

fn run_command<'a>(alloc: Global) -> Result<Command<'a>, AllocError>
    ensures app { IfOk result (λ command. app_of command ≡ run_app) }
    ensures local { IfOk result (λ command. (fields_of command).has_globals ≡ false) }
{
    Command::new(alloc, "run").arg(argument(alloc, "IMAGE"))
}

fn tree_command<'a>(alloc: Global) -> Result<Command<'a>, AllocError>
    ensures app { IfOk result (λ command. app_of command ≡ tree_app) }
    ensures local { IfOk result (λ command. (fields_of command).has_globals ≡ false) }
{
    Command::new(alloc, "tree").arg(argument(alloc, "IMAGE"))
}

fn check_command<'a>(alloc: Global) -> Result<Command<'a>, AllocError>
    ensures app { IfOk result (λ command. app_of command ≡ check_app) }
    ensures local { IfOk result (λ command. (fields_of command).has_globals ≡ false) }
{
    Command::new(alloc, "check").arg(argument(alloc, "IMAGE"))
}

fn crash_command<'a>(alloc: Global) -> Result<Command<'a>, AllocError>
    ensures app { IfOk result (λ command. app_of command ≡ crash_app) }
    ensures local { IfOk result (λ command. (fields_of command).has_globals ≡ false) }
{
    Command::new(alloc, "crash")
        .arg(argument(alloc, "IMAGE"))?
        .arg(needed_option(alloc, "keep"))?
        .arg(option(alloc, "at"))?
        .arg(option(alloc, "call"))?
        .arg(option(alloc, "fence"))?
        .arg(option(alloc, "again"))?
        .arg(option(alloc, "keep2"))
}

fn work_command<'a>(alloc: Global) -> Result<Command<'a>, AllocError>
    ensures app { IfOk result (λ command. app_of command ≡ work_app) }
    ensures local { IfOk result (λ command. (fields_of command).has_globals ≡ false) }
{
    Command::new(alloc, "work")
        .arg(argument(alloc, "IMAGE"))?
        .arg(argument(alloc, "SEED"))?
        .arg(argument(alloc, "COUNT"))
}

fn weave_command<'a>(alloc: Global) -> Result<Command<'a>, AllocError>
    ensures app { IfOk result (λ command. app_of command ≡ weave_app) }
    ensures local { IfOk result (λ command. (fields_of command).has_globals ≡ false) }
{
    Command::new(alloc, "weave")
        .arg(argument(alloc, "IMAGE"))?
        .arg(argument(alloc, "SESSIONS"))?
        .arg(needed_option(alloc, "schedule"))
}

// An argument that has its place among the words and has to be there.
fn argument<'a>(alloc: Global, id: &'a str) -> Arg<'a>
    ensures rule { rule_of result ≡ argument_rule id.now }
    ensures local { result.global ≡ false }
{
    Arg::new(alloc, id).required(true).action(ArgAction::Set)
}

// An option with one value that has to be there.
fn needed_option<'a>(alloc: Global, name: &'a str) -> Arg<'a>
    ensures rule { rule_of result ≡ needed_rule name.now }
    ensures local { result.global ≡ false }
{
    option(alloc, name).required(true)
}

// An option with one value.
fn option<'a>(alloc: Global, name: &'a str) -> Arg<'a>
    ensures rule { rule_of result ≡ option_rule name.now }
    ensures local { result.global ≡ false }
{
    Arg::new(alloc, name).long(name).action(ArgAction::Set)
}

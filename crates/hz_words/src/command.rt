//! The command as `clap` sees it, and the arguments that `clap` reads from the words.
ghost use Rattle.std.specs.Prelude.{◌≡◌, map, IfOk};
ghost use Rattle.std.specs.String.{string_bytes};
ghost use Rattle.clap.specs.Words.{app_of, found_of, rows_of, rule_of};
ghost use Rattle.hz_words.specs.Command.{required_argument, option_rule, hazard_app, arguments_in, texts_of, Parses};

use crate::fault::WordsFault;
use clap::error::ErrorKind;
use clap::{Arg, ArgMatches, Command};
use std::alloc::{AllocError, Global};

// The texts of the arguments. What they may be is not checked yet.
#[derive(Clone, Copy)]
pub(crate) struct Arguments<'w> {
    pub job: Option<&'w str>,
    pub first: Option<&'w str>,
    pub second: Option<&'w str>,
    pub cap: Option<&'w str>,
    pub show: Option<&'w str>,
}

// The arguments that `clap` reads from the words.
pub(crate) fn parse(alloc: Global, words: &[String]) -> Result<Arguments<'_>, WordsFault>
    ensures { Parses (map string_bytes words.now) result }
{
    let Ok(command) = hazard_command(alloc) else {
        return Err(WordsFault::Memory);
    };
    match command.try_get_matches_from(words) {
        Ok(matches) => Ok(arguments_of(&matches)),
        Err(error) => match error.kind() {
            ErrorKind::OutOfMemory => Err(WordsFault::Memory),
            _ => Err(WordsFault::Refused),
        },
    }
}

// The command: a job, its two files, and two options.
fn hazard_command<'w>(alloc: Global) -> Result<Command<'w>, AllocError>
    ensures { IfOk result (λ command. app_of command ≡ hazard_app) }
{
    Command::new(alloc, "hazard")
        .no_binary_name(true)
        .arg(required(alloc, "job"))?
        .arg(required(alloc, "first"))?
        .arg(Arg::new(alloc, "second"))?
        .arg(option(alloc, "cap", "1000"))?
        .arg(option(alloc, "show", "nodes"))
}

// An argument that stands at its place, and must be there.
fn required<'w>(alloc: Global, name: &'w str) -> Arg<'w>
    ensures { rule_of result ≡ required_argument name.entry.now }
{
    Arg::new(alloc, name).required(true)
}

// An option `--name VALUE`, with its value if it is left out.
fn option<'w>(alloc: Global, name: &'w str, value: &'w str) -> Arg<'w>
    ensures { rule_of result ≡ option_rule name.entry.now value.entry.now }
{
    Arg::new(alloc, name).long(name).default_value(value)
}

// The arguments that a parse found.
fn arguments_of<'w>(matches: &ArgMatches<'w>) -> Arguments<'w>
    ensures { texts_of result ≡ arguments_in (rows_of (found_of matches.now)) }
{
    Arguments {
        job: matches.get_str("job"),
        first: matches.get_str("first"),
        second: matches.get_str("second"),
        cap: matches.get_str("cap"),
        show: matches.get_str("show"),
    }
}

//! The words of the command line, read by `clap`.

ghost use Rattle.std.specs.Prelude.{◌≡◌, IfOk, drop, false, map};
ghost use Rattle.std.specs.Option.{option_map};
ghost use Rattle.clap.specs.Words.{app_of, found_of, rows_of, rule_of};
ghost use Rattle.mp_words.specs.Requests.{asked};
ghost use Rattle.mp_words.specs.Words.{action_rule, command, option_rule, request_at, request_of, rest_rule};

use crate::request::{Options, Request, request_by};
use clap::error::ErrorKind;
use clap::{Arg, ArgMatches, Command};
use mp_term::Memory;
use std::alloc::{AllocError, Global};

// An option with one value.
fn make_option<'a>(alloc: Global, name: &'a str) -> Arg<'a>
    ensures rule { rule_of result ≡ option_rule name.entry.now }
    ensures local { result.global ≡ false }
{
    Arg::new(alloc, name).long(name)
}

// The first word that is neither an option nor its value.
fn make_action<'a>(alloc: Global) -> Arg<'a>
    ensures rule { rule_of result ≡ action_rule }
    ensures local { result.global ≡ false }
{
    Arg::new(alloc, "action").required(true)
}

// All such words behind it.
fn make_rest<'a>(alloc: Global) -> Arg<'a>
    ensures rule { rule_of result ≡ rest_rule }
    ensures local { result.global ≡ false }
{
    Arg::new(alloc, "rest").num_args(0..)
}

// The command of which the words are read.
fn make_command<'a>(alloc: Global) -> Result<Command<'a>, AllocError>
    ensures { IfOk result (λ made. app_of made ≡ command) }
{
    let bare = Command::new(alloc, "matchpy");
    let first = bare.arg(make_action(alloc))?;
    let both = first.arg(make_rest(alloc))?;
    let engine = both.arg(make_option(alloc, "engine"))?;
    let limit = engine.arg(make_option(alloc, "limit"))?;
    let resume = limit.arg(make_option(alloc, "resume"))?;
    let max = resume.arg(make_option(alloc, "max"))?;
    max.arg(make_option(alloc, "from"))
}

// The request that clap's matches make, if they make one.
fn request_in<'a>(matches: &ArgMatches<'a>) -> Option<Request<'a>>
    ensures { option_map asked result ≡ request_at (rows_of (found_of matches.now)) }
{
    let name = matches.get_str("action");
    let rest = matches.get_strs("rest");
    let engine = matches.get_str("engine");
    let limit = matches.get_str("limit");
    let resume = matches.get_str("resume");
    let max = matches.get_str("max");
    let from = matches.get_str("from");
    let options = Options {
        engine,
        limit,
        resume,
        max,
        from,
    };
    request_by(name, rest, &options)
}

/// The request that the words make, if they make one. `all` is the program's name, whatever it is, and the words behind
/// it.
///
/// The words are the name of an action and, behind it, that of one file, at `run` those of a file and of a program
/// file, and the options that may stand at the action, each once at most and at any place: `--engine` with `one`,
/// `many`, `net` or `program`, `--limit` with a number from 1 to 1,000,000,000 and, where the engine is `one`,
/// `--resume` with any text at `match`; `--max` with a number from 0 to 1,000,000 at `rewrite`; `--from` with the name
/// of a program file at `compile`; none at `show`, `edit` and `run`. Not both files are `-`. A number is 1 to 10
/// digits. An option and its value are two words, or one with `=` between them; a value that begins with `-`, other
/// than `-` alone, stands behind `=`. The name of a file is any text; one that begins with `-`, other than `-` alone,
/// stands behind the word `--`, where no word is an option. Words that ask for help make no request.
///
/// It meets `request_of` of `specs/Words.antt`. An error is want of memory.
pub fn read_words<'a>(alloc: Global, all: &'a [&'a str]) -> Result<Option<Request<'a>>, Memory>
    ensures { IfOk result (λ read. option_map asked read ≡ request_of (drop 1 (map (λ word. word.now) all.entry.now))) }
{
    let command = make_command(alloc)?;
    match command.try_get_matches_from(all) {
        Ok(matches) => Ok(request_in(&matches)),
        Err(error) => match error.kind() {
            ErrorKind::OutOfMemory => Err(Memory),
            _ => Ok(None),
        },
    }
}

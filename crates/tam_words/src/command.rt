// The command of the program's words, and their matches.
ghost use Rattle.std.specs.Prelude.{◌≡◌, false, map, string_bytes, IfOk, IfErr, is_some, option_map, true};
ghost use Rattle.clap.specs.Words.{app_of, found_of, rows_of, rule_of};
ghost use Rattle.tam_words.specs.declared.usage_cause.UsageCause.TheVariants.{Words};
ghost use Rattle.tam_words.specs.Command.{command, given, is_matched, matches, optional_word, option_of, placed_command};
ghost use Rattle.tam_words.specs.Command.{required_word};
ghost use Rattle.tam_words.specs.Jobs.{holds_or};
ghost use Rattle.tam_words.specs.Tells.{TellsOf};

use crate::words_error::WordsError;
use clap::{Arg, ArgMatches, Command};
use std::alloc::{AllocError, Global};

/// The matches of the command on the words behind the program's name.
pub fn match_words<'a>(alloc: Global, words: &'a [String]) -> Result<ArgMatches<'a>, WordsError>
    ensures matched { IfOk result (λ _. is_matched (map string_bytes words.entry.now) ≡ true) }
    ensures found { IfOk result (λ found. rows_of (found_of found) ≡ matches (map string_bytes words.entry.now)) }
    ensures refused { IfErr result (TellsOf (holds_or Words (is_matched (map string_bytes words.entry.now)))) }
{
    Ok(command(alloc)?.try_get_matches_from(words)?)
}

/// The value that matches give the argument of a name.
pub fn given<'a>(name: &str, matches: &ArgMatches<'a>) -> Option<&'a str>
    ensures value { option_map (λ value. value.now) result ≡ given name.now (rows_of (found_of matches.now)) }
{
    matches.get_str(name)
}

/// Whether matches give the argument of a name a value.
pub fn is_given(name: &str, matches: &ArgMatches) -> bool
    ensures value { result ≡ is_some (given name.now (rows_of (found_of matches.now))) }
{
    given(name, matches).is_some()
}

// The command of the program's words.
fn command<'a>(alloc: Global) -> Result<Command<'a>, AllocError>
    ensures value { IfOk result (λ made. app_of made ≡ command) }
{
    placed_command(alloc)?
        .arg(option(alloc, "args"))?
        .arg(option(alloc, "order"))?
        .arg(option(alloc, "order-file"))?
        .arg(option(alloc, "budget"))?
        .arg(option(alloc, "frames"))?
        .arg(option(alloc, "cells"))
}

// MODE, NAME and perhaps COUNT, in this order.
fn placed_command<'a>(alloc: Global) -> Result<Command<'a>, AllocError>
    ensures value { IfOk result (λ made. app_of made ≡ placed_command) }
{
    let command = Command::new(alloc, "tam")
        .no_binary_name(true)
        .disable_help_flag(true)
        .disable_version_flag(true);
    command
        .arg(required_word(alloc, "mode"))?
        .arg(required_word(alloc, "name"))?
        .arg(optional_word(alloc, "count"))
}

// A word that has to stand in its place.
fn required_word<'a>(alloc: Global, name: &'a str) -> Arg<'a>
    ensures value { rule_of result ≡ required_word name.entry.now }
    ensures local { result.global ≡ false }
{
    Arg::new(alloc, name).required(true)
}

// A word that may stand in its place.
fn optional_word<'a>(alloc: Global, name: &'a str) -> Arg<'a>
    ensures value { rule_of result ≡ optional_word name.entry.now }
    ensures local { result.global ≡ false }
{
    Arg::new(alloc, name)
}

// An option with one value, which stands behind `=` or is the next word.
fn option<'a>(alloc: Global, name: &'a str) -> Arg<'a>
    ensures value { rule_of result ≡ option_of name.entry.now }
    ensures local { result.global ≡ false }
{
    Arg::new(alloc, name).long(name)
}

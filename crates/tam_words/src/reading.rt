// The job that words ask for.
ghost use Rattle.std.specs.Prelude.{◌≡◌, map, string_bytes, IfOk, IfErr, Ok, [], Some, unwrap_or, false, codes};
ghost use Rattle.std.specs.Option.{option_map};
ghost use Rattle.clap.specs.Words.{found_of, rows_of};
ghost use Rattle.tam_msgs.specs.Messages.{AreLimits};
ghost use Rattle.tam_words.specs.declared.usage_cause.UsageCause.TheVariants.{Words};
ghost use Rattle.tam_words.specs.Names.{makes};
ghost use Rattle.tam_words.specs.Command.{given};
ghost use Rattle.tam_words.specs.Options.{usual_limits};
ghost use Rattle.tam_words.specs.Jobs.{asked, asked_by, mode_job_of, job_of, made_job_of, limits_of, has_option, is_extra, some_or, Job as Asks};
ghost use Rattle.tam_words.specs.Tells.{Tells, TellsOf};

use crate::command::{given, is_given, match_words};
use crate::job::Job;
use crate::mode::{Mode, mode_of};
use crate::shapes::{read_count, shape_of};
use crate::usage_cause::UsageCause;
use crate::values::{read_args, read_limit, read_order};
use crate::words_error::WordsError;
use clap::ArgMatches;
use std::alloc::{AllocError, Global};
use tam_msgs::{Limits, Order};

/// The job that the words behind the program's name ask for, or the first cause of those that forbid one. Want of memory may hide a cause.
///
/// docs/FORMATS.md, "Command line".
#[tactic(auto, unfolding(crate::specs::Jobs::asked))]
pub fn read_words(alloc: Global, words: &[String]) -> Result<Job, WordsError>
    ensures found { IfOk result (λ job. asked (map string_bytes words.now) ≡ Asks job) }
    ensures refused { IfErr result (Tells (asked (map string_bytes words.now))) }
{
    let matches = match_words(alloc, words)?;
    read_matches(alloc, &matches)
}

// The job that matches ask for.
fn read_matches(alloc: Global, matches: &ArgMatches) -> Result<Job, WordsError>
    ensures found { IfOk result (λ job. asked_by (rows_of (found_of matches.now)) ≡ Asks job) }
    ensures refused { IfErr result (Tells (asked_by (rows_of (found_of matches.now)))) }
{
    let mode = required("mode", matches)?;
    let name = required("name", matches)?;
    let Some(mode) = mode_of(mode.as_bytes()) else {
        return Err(WordsError::Usage(UsageCause::Mode));
    };
    read_mode_job(alloc, mode, name, matches)
}

// The value of an argument that the command requires.
fn required<'a>(name: &str, matches: &ArgMatches<'a>) -> Result<&'a str, WordsError>
    ensures found { IfOk result (λ value. given name.now (rows_of (found_of matches.now)) ≡ Some value.now) }
    ensures refused { IfErr result (TellsOf (some_or Words (given name.now (rows_of (found_of matches.now))))) }
{
    match given(name, matches) {
        Some(value) => Ok(value),
        None => Err(WordsError::Usage(UsageCause::Words)),
    }
}

// The job of a mode, where what is given belongs to it.
fn read_mode_job(
    alloc: Global,
    mode: Mode,
    name: &str,
    matches: &ArgMatches,
) -> Result<Job, WordsError>
    ensures found { IfOk result (λ job. mode_job_of mode name.now (rows_of (found_of matches.now)) ≡ Asks job) }
    ensures refused { IfErr result (Tells (mode_job_of mode name.now (rows_of (found_of matches.now)))) }
{
    if is_extra(mode, matches) {
        return Err(WordsError::Usage(UsageCause::Extra));
    }
    if mode.makes() {
        read_made_job(alloc, mode, name, matches)
    } else {
        read_job(alloc, mode, name, matches)
    }
}

// Whether there is a count or an option that doesn't belong to the mode, or there are options that don't belong together.
fn is_extra(mode: Mode, matches: &ArgMatches) -> bool
    ensures value { result ≡ is_extra mode (rows_of (found_of matches.now)) }
{
    !mode.makes() && is_given("count", matches)
        || !mode.runs() && has_option(matches)
        || is_given("order", matches) && is_given("order-file", matches)
}

// Whether an option is given.
fn has_option(matches: &ArgMatches) -> bool
    ensures value { result ≡ has_option (rows_of (found_of matches.now)) }
{
    is_given("args", matches)
        || is_given("order", matches)
        || is_given("order-file", matches)
        || is_given("budget", matches)
        || is_given("frames", matches)
        || is_given("cells", matches)
}

// The job of a mode on a file with options, if each option's value is right.
fn read_job(alloc: Global, mode: Mode, name: &str, matches: &ArgMatches) -> Result<Job, WordsError>
    requires reads { makes mode ≡ false }
    ensures found { IfOk result (λ job. job_of mode name.now (rows_of (found_of matches.now)) ≡ Asks job) }
    ensures refused { IfErr result (Tells (job_of mode name.now (rows_of (found_of matches.now)))) }
{
    let args = read_args(alloc, text_of("args", matches).as_bytes())?;
    let order = read_order(alloc, text_of("order", matches).as_bytes())?;
    let limits = read_limits(matches)?;
    let order_file = order_file(alloc, matches)?;
    let name = String::from_str(alloc, name)?;
    Ok(Job::new(mode, name, 0, args, order, order_file, limits))
}

// The job of a mode that makes its input, if the name is that of a shape, which may have the count.
fn read_made_job(
    alloc: Global,
    mode: Mode,
    name: &str,
    matches: &ArgMatches,
) -> Result<Job, WordsError>
    ensures found { IfOk result (λ job. made_job_of mode name.now (rows_of (found_of matches.now)) ≡ Asks job) }
    ensures refused { IfErr result (Tells (made_job_of mode name.now (rows_of (found_of matches.now)))) }
{
    let Some(shape) = shape_of(name.as_bytes()) else {
        return Err(WordsError::Usage(UsageCause::Shape));
    };
    let Some(count) = read_count(shape, given("count", matches)) else {
        return Err(WordsError::Usage(UsageCause::Count));
    };
    let name = String::from_str(alloc, name)?;
    let args = Vec::new(alloc);
    let order = Order::none(alloc);
    Ok(Job::new(mode, name, count, args, order, None, usual_limits()))
}

// The limits where no option sets them.
fn usual_limits() -> Limits
    ensures value { result ≡ usual_limits }
    ensures in_range { AreLimits result }
{
    Limits {
        budget: 1_000_000,
        frames: 4096,
        cells: 1_048_576,
    }
}

// The limits of a run.
fn read_limits(matches: &ArgMatches) -> Result<Limits, WordsError>
    ensures found { IfOk result (λ limits. limits_of (rows_of (found_of matches.now)) ≡ Ok limits) }
    ensures in_range { IfOk result AreLimits }
    ensures refused { IfErr result (TellsOf (limits_of (rows_of (found_of matches.now)))) }
{
    let Some(budget) = read_limit(given("budget", matches), 1_000_000, 0, u32::MAX) else {
        return Err(WordsError::Usage(UsageCause::Budget));
    };
    let Some(frames) = read_limit(given("frames", matches), 4096, 1, 16_384) else {
        return Err(WordsError::Usage(UsageCause::Frames));
    };
    let Some(cells) = read_limit(given("cells", matches), 1_048_576, 0, 4_194_304) else {
        return Err(WordsError::Usage(UsageCause::Cells));
    };
    Ok(Limits {
        budget,
        frames,
        cells,
    })
}

// The value of an argument, or an empty text.
fn text_of<'a>(name: &str, matches: &ArgMatches<'a>) -> &'a str
    ensures value { result.now ≡ unwrap_or (given name.now (rows_of (found_of matches.now))) [] }
{
    match given(name, matches) {
        Some(text) => text,
        None => "",
    }
}

// The name of the order file.
fn order_file(alloc: Global, matches: &ArgMatches) -> Result<Option<String>, AllocError>
    ensures same { IfOk result (λ file. option_map string_bytes file ≡ given (codes "order-file") (rows_of (found_of matches.now))) }
{
    match given("order-file", matches) {
        Some(file) => Ok(Some(String::from_str(alloc, file)?)),
        None => Ok(None),
    }
}

//! The words are read.

ghost use Rattle.std.specs.Prelude.{◌≡◌, ◌≢◌, [], IfOk, map, option_map, string_bytes};
ghost use Rattle.clap.specs.Words.{all_of, fault_of, first_of, found_of, rows_of, subcommand_of, subcommand_rows_of};
ghost use Rattle.command_line.specs.Plans.{IsReadBy, lent_text, lent_texts};
ghost use Rattle.command_line.specs.Program.{program as the_program};
ghost use Rattle.command_line.specs.Reading.{check_in, count_of, generate_in, named_in, reading, run_in, sessions_in, texts};

use crate::plan::{Plan, WordFault};
use crate::program::program;
use clap::ArgMatches;
use clap::error::ErrorKind;
use std::alloc::{AllocError, Global};

/// The first word that was given for an argument.
fn text_of<'a>(matches: &ArgMatches<'a>, name: &str) -> Option<&'a str>
    ensures { lent_text result ≡ first_of name.now (rows_of (found_of matches.now)) }
{
    matches.get_str(name)
}

/// All words that were given for an argument.
fn texts_of<'a, 'm>(matches: &'m ArgMatches<'a>, name: &str) -> Option<&'m [&'a str]>
    ensures { lent_texts result ≡ all_of name.now (rows_of (found_of matches.now)) }
{
    matches.get_strs(name)
}

/// The sessions, one at least.
fn sessions_of<'a, 'm>(matches: &'m ArgMatches<'a>) -> Option<&'m [&'a str]>
    ensures { lent_texts result ≡ sessions_in (rows_of (found_of matches.now)) }
{
    match texts_of(matches, "session") {
        Some([]) => None,
        sessions => sessions,
    }
}

/// A text of its own.
fn copied(alloc: Global, text: Option<&str>) -> Result<Option<String>, AllocError>
    ensures { IfOk result (λ copy. option_map string_bytes copy ≡ lent_text text.entry) }
{
    match text {
        Some(text) => Ok(Some(String::from_str(alloc, text)?)),
        None => Ok(None),
    }
}

/// Texts of their own.
fn all_copied(alloc: Global, all: &[&str]) -> Result<Vec<String>, AllocError>
    ensures { IfOk result (λ copies. texts copies.items ≡ map (λ t. t.now) all.now) }
{
    let mut copies = Vec::new(alloc);
    for text in all {
        copies.push(String::from_str(alloc, text)?)?;
    }
    Ok(copies)
}

/// A number from 1 to 63: decimal digits without a sign or a leading zero.
fn count_in(text: &str) -> Option<u32>
    ensures { result ≡ count_of text.now }
{
    match text.as_bytes() {
        [b'1'..=b'9', ..] => match text.parse::<u32>() {
            Ok(n) if n <= 63 => Some(n),
            _ => None,
        },
        _ => None,
    }
}

fn run_plan(alloc: Global, matches: &ArgMatches<'_>) -> Result<Plan, WordFault>
    ensures { IsReadBy (run_in (rows_of (found_of matches.now))) result }
{
    let Some(root) = text_of(matches, "root") else {
        return Err(WordFault::NoReading);
    };
    let Some(sessions) = sessions_of(matches) else {
        return Err(WordFault::NoReading);
    };
    Ok(Plan::Run {
        root: String::from_str(alloc, root)?,
        remote: copied(alloc, text_of(matches, "remote"))?,
        order: copied(alloc, text_of(matches, "order"))?,
        sessions: all_copied(alloc, sessions)?,
    })
}

fn gen_plan(alloc: Global, matches: &ArgMatches<'_>) -> Result<Plan, WordFault>
    ensures { IsReadBy (generate_in (rows_of (found_of matches.now))) result }
{
    let Some(root) = text_of(matches, "root") else {
        return Err(WordFault::NoReading);
    };
    let Some(text) = text_of(matches, "n") else {
        return Err(WordFault::NoReading);
    };
    let Some(n) = count_in(text) else {
        return Err(WordFault::NoReading);
    };
    Ok(Plan::Gen {
        root: String::from_str(alloc, root)?,
        n,
    })
}

fn check_plan(alloc: Global, matches: &ArgMatches<'_>) -> Result<Plan, WordFault>
    ensures { IsReadBy (check_in (rows_of (found_of matches.now))) result }
{
    let Some(root) = text_of(matches, "root") else {
        return Err(WordFault::NoReading);
    };
    let Some(order) = text_of(matches, "order") else {
        return Err(WordFault::NoReading);
    };
    let Some(sessions) = sessions_of(matches) else {
        return Err(WordFault::NoReading);
    };
    Ok(Plan::Check {
        root: String::from_str(alloc, root)?,
        order: String::from_str(alloc, order)?,
        remote: copied(alloc, text_of(matches, "remote"))?,
        sessions: all_copied(alloc, sessions)?,
    })
}

/// By the command's name, and what stands behind it.
fn plan_of(alloc: Global, name: &str, matches: &ArgMatches<'_>) -> Result<Plan, WordFault>
    ensures { IsReadBy (named_in name.now (rows_of (found_of matches.now))) result }
{
    match name {
        "run" => run_plan(alloc, matches),
        "gen" => gen_plan(alloc, matches),
        "check" => check_plan(alloc, matches),
        _ => Err(WordFault::NoReading),
    }
}

/// What `clap` finds in the words, if it reads them.
fn matches_of<'a>(alloc: Global, words: &'a [String]) -> Result<ArgMatches<'a>, WordFault>
    ensures ok { IfOk result (λ m. (fault_of the_program (texts words.now) ≡ [])
        × (subcommand_rows_of m ≡ subcommand_of the_program (texts words.now))) }
    ensures err { result ≡ Err WordFault.NoReading
        → fault_of the_program (texts words.now) ≢ [] }
{
    match program(alloc)?.try_get_matches_from(words) {
        Ok(matches) => Ok(matches),
        Err(error) if error.kind() == ErrorKind::OutOfMemory => Err(WordFault::NoMemory),
        Err(_) => Err(WordFault::NoReading),
    }
}

/// Reads the words that follow the program's name, as `clap` does, with help and version switched off:
/// - `run ROOT [--remote ROOT2] [--order FILE] SESSION..`, with one session at least,
/// - `gen ROOT N`, N from 1 to 63 in decimal digits without a leading zero,
/// - `check ROOT ORDER [--remote ROOT2] SESSION..`, with one session at least.
///
/// Options stand at any place behind the command's name, and once at most; `--remote=ROOT2` is read too. A dash alone is no
/// option, and behind `--` no word is one. Other words have no reading.
pub fn plan_words(alloc: Global, words: &[String]) -> Result<Plan, WordFault>
    ensures { IsReadBy (reading (texts words.now)) result }
{
    match matches_of(alloc, words)?.subcommand() {
        Some((name, matches)) => plan_of(alloc, name, matches),
        None => Err(WordFault::NoReading),
    }
}

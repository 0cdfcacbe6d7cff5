//! The words of the command line: how they are read, and what they ask for.
ghost use Rattle.std.specs.Prelude.{◌≡◌, ◌<◌, ◌≤◌, ◌^◌, ℕ, List, [], ◌∷◌, Some, None, IfOk, IfSome, codes, false};
ghost use Rattle.std.specs.List.{AllByRecursion};
ghost use Rattle.std.specs.IoError.{error_kind};
ghost use Rattle.clap.specs.Words.{app_of, found_of, rows_of, rule_of, subcommand_rows_of, Text};
ghost use Rattle.hrt_top.specs.Command.{request_in, asked_by_texts, asked_of, make_of, option_number, option_words, program, required_option, unread_status, AreWords, InAnyOrder, AsksInRange, Lacks, OptionName, Seed, Lanes, Calls};
ghost use Rattle.hrt_top.specs.declared.command.Request.TheVariants.{Run, Make};

use crate::status::Status;
use clap::error::ErrorKind;
use clap::{Arg, ArgAction, ArgMatches, Command};
use script_text::number;
use std::alloc::{AllocError, Global};
use std::env::Args;
use std::io;

/// What the program is asked to do.
#[derive(Clone, Copy, Debug, PartialEq, Eq)]
pub enum Request {
    /// To read a script from the source, run it, and write its record.
    Run,
    /// To make the script of so many calls of each lane from this seed, run it, and write its summary.
    Make { seed: u64, lanes: u32, calls: u64 },
}

/// Reads the words of a command line, the program's name first. `None` where they ask for nothing that the
/// program does, `help` and `--help` alone among them.
pub fn asks(alloc: Global, words: &[String]) -> Result<Option<Request>, AllocError>
    ensures asked { IfOk result (λ asked. asked ≡ request_in words.now) }
    ensures range { IfOk result AsksInRange }
{
    match command(alloc)?.try_get_matches_from(words) {
        Ok(matches) => Ok(asked_of(&matches)),
        Err(error) => match error.kind() {
            ErrorKind::OutOfMemory => Err(AllocError),
            _ => Ok(None),
        },
    }
}

/// What words ask for: the one word `run` for a run; `gen` with its three options in any order, each with a number in
/// its range, for the script that is made from these; and no word, `help` or `--help` alone, or `gen` without one of its
/// options, for nothing.
pub fn what_words_ask_for()
    ensures run { (name : Text) → asked_by_texts (name ∷ codes "run" ∷ []) ≡ Some Run }
    ensures make { (name : Text) → (s w n : ℕ) → s ≤ 2147483647 → 1 ≤ w → w ≤ 8 → n ≤ 4096
        → (options : List (OptionName × ℕ)) → InAnyOrder (Seed, s) (Lanes, w) (Calls, n) options
        → asked_by_texts (name ∷ codes "gen" ∷ option_words options) ≡ Some (Make s w n) }
    ensures incomplete { (name : Text) → (missing : OptionName) → (options : List (OptionName × ℕ)) → AllByRecursion (λ p. p.1 < 2 ^ 64) options
        → Lacks missing options → asked_by_texts (name ∷ codes "gen" ∷ option_words options) ≡ None }
    ensures none { (asked_by_texts [] ≡ None) × ((name : Text) → asked_by_texts (name ∷ []) ≡ None) }
    ensures help { (name : Text) → (asked_by_texts (name ∷ codes "--help" ∷ []) ≡ None) × (asked_by_texts (name ∷ codes "help" ∷ []) ≡ None) }
{}

/// The command, as its words are read.
fn command<'a>(alloc: Global) -> Result<Command<'a>, AllocError>
    ensures { IfOk result (λ c. app_of c ≡ program) }
{
    let run = Command::new(alloc, "run");
    let make = Command::new(alloc, "gen")
        .arg(required(alloc, "seed"))?
        .arg(required(alloc, "lanes"))?
        .arg(required(alloc, "calls"))?;
    Command::new(alloc, "hrt")
        .subcommand_required(true)
        .subcommand(run)?
        .subcommand(make)
}

/// An option that must be given, once, with one value.
fn required<'a>(alloc: Global, name: &'a str) -> Arg<'a>
    ensures rule { rule_of result ≡ required_option name.entry.now }
    ensures local { result.global ≡ false }
{
    Arg::new(alloc, name)
        .long(name)
        .required(true)
        .action(ArgAction::Set)
}

/// What was asked for, by the subcommand and its options.
fn asked_of(matches: &ArgMatches<'_>) -> Option<Request>
    ensures asked { result ≡ asked_of (subcommand_rows_of matches.now) }
    ensures range { AsksInRange result }
{
    let (name, options) = matches.subcommand()?;
    if name == "run" {
        Some(Request::Run)
    } else if name == "gen" {
        make_of(options)
    } else {
        None
    }
}

/// The script that these options ask for, where each is in its range.
fn make_of(options: &ArgMatches<'_>) -> Option<Request>
    ensures asked { result ≡ make_of (rows_of (found_of options.now)) }
    ensures range { AsksInRange result }
{
    let seed = option_number(options, "seed", 0, 2147483647)?;
    let lanes = option_number(options, "lanes", 1, 8)?;
    let calls = option_number(options, "calls", 0, 4096)?;
    Some(Request::Make {
        seed,
        lanes: lanes as u32,
        calls,
    })
}

/// The number of an option, where it is one within these bounds.
fn option_number(options: &ArgMatches<'_>, name: &str, least: u64, most: u64) -> Option<u64>
    ensures number { result ≡ option_number name.now least most (rows_of (found_of options.now)) }
    ensures range { IfSome result (λ n. (least ≤ n) × (n ≤ most)) }
{
    let n = number(options.get_str(name)?.as_bytes())?;
    if least <= n && n <= most {
        Some(n)
    } else {
        None
    }
}

/// The words, of what reading the process's arguments gave.
pub fn words(alloc: Global, args: io::Result<Args>) -> Result<Vec<String>, Status>
    ensures { AreWords args result }
{
    match args {
        Ok(args) => match args.collect(alloc) {
            Ok(words) => Ok(words),
            Err(_) => Err(Status::OutOfMemory),
        },
        Err(fault) => Err(unread(fault)),
    }
}

// The status where the arguments can't be read.
fn unread(fault: io::Error) -> Status
    ensures { result ≡ unread_status (error_kind fault) }
{
    match fault.kind() {
        io::ErrorKind::OutOfMemory => Status::OutOfMemory,
        _ => Status::Usage,
    }
}

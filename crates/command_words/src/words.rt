//! From the words of a command line to the job that they ask for.

ghost use Rattle.std.specs.Prelude.{◌≡◌, ◌≢◌, [], None, Some, Ok, Err, IfOk, IfErr, map, codes};
ghost use Rattle.std.specs.List.{AllByRecursion};
ghost use Rattle.std.specs.Str.{IsUtf8};
ghost use Rattle.clap.specs.Words.{rows_of, found_of, first_of};
ghost use Rattle.slot_text.specs.Reads.{GivesOr};
ghost use Rattle.command_words.specs.declared.job.Job.{Job};
ghost use Rattle.command_words.specs.Words.{Word, words_of};
ghost use Rattle.command_words.specs.Values.{names_exactly, number_within, number_or};
ghost use Rattle.command_words.specs.Jobs.{job_of, IsJob, allocate_command, check_command};
ghost use Rattle.command_words.specs.Jobs.{amend_command, serve_command, resume_command};
ghost use Rattle.command_words.specs.Jobs.{usage_command, reclear_command, recheck_command};
ghost use Rattle.command_words.specs.Jobs.{report_command, inspect_command, make_command};
ghost use Rattle.command_words.specs.Jobs.{trial_command};
ghost use Rattle.command_words.specs.Jobs.{make_job, trial_job};
ghost use Rattle.command_words.specs.App.{names_held, job_by_rows, job_named, AsksFor};
ghost use Rattle.command_words.specs.Answers.{Answers};

use crate::command::matches_in;
use crate::job::{Job, Name, NameList, WordFault};
use clap::ArgMatches;
use clap::error::ErrorKind;
use slot_text::read_u64;
use std::alloc::Global;

/// The job that the words of a command line ask for, the program's own name left out. A refusal for
/// want of memory may come in place of any answer.
pub fn read_words(alloc: Global, words: &[String]) -> Result<Job, WordFault>
    ensures found { IfOk result (λ job. job_of (words_of words.now) ≡ Some job) }
    ensures only { (job : Job) → job_of (words_of words.now) ≡ Some job
        → GivesOr WordFault.Memory result (Ok job) }
    ensures none { job_of (words_of words.now) ≡ None
        → GivesOr WordFault.Memory result (Err WordFault.Words) }
    ensures named { IfOk result IsJob }
{
    find_job(alloc, words)
}

fn find_job(alloc: Global, words: &[String]) -> Result<Job, WordFault>
    ensures { Answers (job_of (words_of words.now)) result }
{
    let matches = read_matches(alloc, words)?;
    let Some((name, found)) = matches.subcommand() else {
        return Err(WordFault::Words);
    };
    read_job(alloc, name, found)
}

/// What `clap` finds in the words, where they are a command's.
fn read_matches<'a>(alloc: Global, words: &'a [String]) -> Result<ArgMatches<'a>, WordFault>
    ensures found { IfOk result (AsksFor (words_of words.entry.now)) }
    ensures none { IfErr result (λ fault. fault ≡ WordFault.Words
        → job_of (words_of words.entry.now) ≡ None) }
{
    check_texts(words);
    match matches_in(alloc, words) {
        Ok(matches) => Ok(matches),
        Err(error) => Err(fault_by(error.kind())),
    }
}

fn fault_by(kind: ErrorKind) -> WordFault
    ensures { result ≡ WordFault.Words → kind ≢ ErrorKind.OutOfMemory }
{
    match kind {
        ErrorKind::OutOfMemory => WordFault::Memory,
        _ => WordFault::Words,
    }
}

/// Each word is text. It does nothing.
fn check_texts(words: &[String])
    ensures { AllByRecursion IsUtf8 (words_of words.now) }
{
    for word in words {
        let _text = word.as_str().as_bytes();
    }
}

/// The job of the command with this name, by what was found in its words.
fn read_job(alloc: Global, name: &str, found: &ArgMatches<'_>) -> Result<Job, WordFault>
    ensures { Answers (job_named name.now (rows_of (found_of found.now))) result }
{
    match name {
        "allocate" => read_allocate(alloc, found),
        "check" => read_check(alloc, found),
        "amend" => read_amend(alloc, found),
        "serve" => read_serve(alloc, found),
        "resume" => read_resume(alloc, found),
        "usage" => read_usage(alloc, found),
        "reclear" => read_reclear(alloc, found),
        "recheck" => read_recheck(alloc, found),
        "report" => read_report(alloc, found),
        "inspect" => read_inspect(alloc, found),
        "make" => read_make(alloc, found),
        "trial" => read_trial(found),
        _ => Err(WordFault::Words),
    }
}

fn read_allocate(alloc: Global, found: &ArgMatches<'_>) -> Result<Job, WordFault>
    ensures { Answers (job_by_rows allocate_command (rows_of (found_of found.now))) result }
{
    let names = read_names(alloc, found, 4)?;
    let nodes = read_nodes(found)?;
    let workers = read_option(found, "workers", 1, 16, 4)?;
    Ok(Job::Allocate {
        names,
        nodes,
        workers,
    })
}

fn read_check(alloc: Global, found: &ArgMatches<'_>) -> Result<Job, WordFault>
    ensures { Answers (job_by_rows check_command (rows_of (found_of found.now))) result }
{
    let names = read_names(alloc, found, 3)?;
    Ok(Job::Check { names })
}

fn read_amend(alloc: Global, found: &ArgMatches<'_>) -> Result<Job, WordFault>
    ensures { Answers (job_by_rows amend_command (rows_of (found_of found.now))) result }
{
    let names = read_names(alloc, found, 5)?;
    Ok(Job::Amend { names })
}

fn read_serve(alloc: Global, found: &ArgMatches<'_>) -> Result<Job, WordFault>
    ensures { Answers (job_by_rows serve_command (rows_of (found_of found.now))) result }
{
    let names = read_names(alloc, found, 4)?;
    let links = read_option(found, "links", 1, 1_000, 1)?;
    let port = read_option(found, "port", 1, 65_535, 7_710)?;
    let workers = read_option(found, "workers", 1, 16, 4)?;
    Ok(Job::Serve {
        names,
        links,
        port,
        workers,
    })
}

fn read_resume(alloc: Global, found: &ArgMatches<'_>) -> Result<Job, WordFault>
    ensures { Answers (job_by_rows resume_command (rows_of (found_of found.now))) result }
{
    let names = read_names(alloc, found, 5)?;
    let links = read_option(found, "links", 1, 1_000, 1)?;
    let port = read_option(found, "port", 1, 65_535, 7_710)?;
    let workers = read_option(found, "workers", 1, 16, 4)?;
    Ok(Job::Resume {
        names,
        links,
        port,
        workers,
    })
}

fn read_usage(alloc: Global, found: &ArgMatches<'_>) -> Result<Job, WordFault>
    ensures { Answers (job_by_rows usage_command (rows_of (found_of found.now))) result }
{
    let names = read_names(alloc, found, 5)?;
    Ok(Job::Usage { names })
}

fn read_reclear(alloc: Global, found: &ArgMatches<'_>) -> Result<Job, WordFault>
    ensures { Answers (job_by_rows reclear_command (rows_of (found_of found.now))) result }
{
    let names = read_names(alloc, found, 6)?;
    let nodes = read_nodes(found)?;
    let workers = read_option(found, "workers", 1, 16, 4)?;
    Ok(Job::Reclear {
        names,
        nodes,
        workers,
    })
}

fn read_recheck(alloc: Global, found: &ArgMatches<'_>) -> Result<Job, WordFault>
    ensures { Answers (job_by_rows recheck_command (rows_of (found_of found.now))) result }
{
    let names = read_names(alloc, found, 5)?;
    Ok(Job::Recheck { names })
}

fn read_report(alloc: Global, found: &ArgMatches<'_>) -> Result<Job, WordFault>
    ensures { Answers (job_by_rows report_command (rows_of (found_of found.now))) result }
{
    let names = read_names(alloc, found, 5)?;
    Ok(Job::Report { names })
}

fn read_inspect(alloc: Global, found: &ArgMatches<'_>) -> Result<Job, WordFault>
    ensures { Answers (job_by_rows inspect_command (rows_of (found_of found.now))) result }
{
    let names = read_names(alloc, found, 2)?;
    Ok(Job::Inspect { names })
}

fn read_make(alloc: Global, found: &ArgMatches<'_>) -> Result<Job, WordFault>
    ensures { Answers (job_by_rows make_command (rows_of (found_of found.now))) result }
{
    match found.get_strs("names") {
        Some(words) => make_of(alloc, words),
        None => make_of(alloc, &[]),
    }
}

fn make_of(alloc: Global, words: &[&str]) -> Result<Job, WordFault>
    ensures { Answers (make_job (map (λ word. word.now) words.now) []) result }
{
    let [number, units, names @ ..] = words else {
        return Err(WordFault::Words);
    };
    let number = read_number(number, 0, 65_536)?;
    let units = read_number(units, 1, 4_096)?;
    let names = copy_names(alloc, names, 2)?;
    Ok(Job::Make {
        number,
        units,
        names,
    })
}

fn read_trial(found: &ArgMatches<'_>) -> Result<Job, WordFault>
    ensures { Answers (job_by_rows trial_command (rows_of (found_of found.now))) result }
{
    match found.get_strs("names") {
        Some(words) => trial_of(words),
        None => trial_of(&[]),
    }
}

fn trial_of(words: &[&str]) -> Result<Job, WordFault>
    ensures { Answers (trial_job (map (λ word. word.now) words.now) []) result }
{
    let [number, units] = words else {
        return Err(WordFault::Words);
    };
    let number = read_number(number, 0, 65_536)?;
    let units = read_number(units, 1, 4_096)?;
    Ok(Job::Trial { number, units })
}

/// The names, where there are exactly so many.
fn read_names(alloc: Global, found: &ArgMatches<'_>, count: usize) -> Result<NameList, WordFault>
    ensures { Answers (names_exactly count (names_held (rows_of (found_of found.now)))) result }
{
    match found.get_strs("names") {
        Some(names) => copy_names(alloc, names, count),
        None => copy_names(alloc, &[], count),
    }
}

fn copy_names(alloc: Global, names: &[&str], count: usize) -> Result<NameList, WordFault>
    ensures { Answers (names_exactly count (map (λ name. name.now) names.now)) result }
{
    if names.len() != count {
        return Err(WordFault::Words);
    }
    let mut items = Vec::new(alloc);
    for name in names {
        items.push(Name::new(String::from_str(alloc, name)?))?;
    }
    Ok(NameList::new(items))
}

/// How many nodes a search may have.
fn read_nodes(found: &ArgMatches<'_>) -> Result<u32, WordFault>
    ensures { let value = first_of (codes "nodes") (rows_of (found_of found.now)) in
        Answers (number_or 1 1000000 100000 value) result }
{
    read_option(found, "nodes", 1, 1_000_000, 100_000)
}

/// The number that the option is given, from `least` to `most`, or else the usual one.
fn read_option(
    found: &ArgMatches<'_>,
    option: &str,
    least: u32,
    most: u32,
    usual: u32,
) -> Result<u32, WordFault>
    ensures { let value = first_of option.now (rows_of (found_of found.now)) in
        Answers (number_or least most usual value) result }
{
    match found.get_str(option) {
        Some(text) => read_number(text, least, most),
        None => Ok(usual),
    }
}

/// The number from `least` to `most` that the word spells.
fn read_number(word: &str, least: u32, most: u32) -> Result<u32, WordFault>
    ensures { Answers (number_within least most word.now) result }
{
    let Ok(n) = read_u64(word.as_bytes()) else {
        return Err(WordFault::Words);
    };
    if n < u64::from(least) || n > u64::from(most) {
        return Err(WordFault::Words);
    }
    Ok(n as u32)
}

//! The command line as `clap` is told of it.

ghost use Rattle.std.specs.Prelude.{◌≡◌, [], ◌∷◌, map, IfOk, IfErr, false, codes};
ghost use Rattle.clap.specs.Words.{app_of, shape_of, FailsBy, fault_of, HasMatchesOf, rule_of};
ghost use Rattle.clap.specs.Words.{App, Shape, with_rule, with_subcommand};
ghost use Rattle.clap.specs.declared.builder.command.Command.TheViews.{out-Command};
ghost use Rattle.command_words.specs.Words.{words_of};
ghost use Rattle.command_words.specs.Jobs.{allocate_command, check_command};
ghost use Rattle.command_words.specs.Jobs.{amend_command, serve_command, resume_command};
ghost use Rattle.command_words.specs.Jobs.{usage_command, reclear_command, recheck_command};
ghost use Rattle.command_words.specs.Jobs.{report_command, inspect_command, make_command};
ghost use Rattle.command_words.specs.Jobs.{trial_command};
ghost use Rattle.command_words.specs.App.{option_arg, names_arg, leaf_of, args_for, command_shape};
ghost use Rattle.command_words.specs.App.{bare_app, reading_app};
ghost use Rattle.command_words.specs.App.{season_app, waiting_app, telling_app, desk_app};

use clap::{Arg, ArgAction, ArgMatches, Command, Error};
use std::alloc::{AllocError, Global};

/// An option with one value.
fn option<'a>(alloc: Global, name: &'a str) -> Arg<'a>
    ensures rule { rule_of result ≡ option_arg name.entry.now }
    ensures local { result.global ≡ false }
{
    Arg::new(alloc, name).long(name).action(ArgAction::Set)
}

/// The names, in their order. Each is a use of its own, so that options may stand between them.
fn names<'a>(alloc: Global) -> Arg<'a>
    ensures rule { rule_of result ≡ names_arg }
    ensures local { result.global ≡ false }
{
    Arg::new(alloc, "names").action(ArgAction::Append)
}

/// A command with one option more.
fn with_option<'a>(
    alloc: Global,
    command: Result<Command<'a>, AllocError>,
    name: &'a str,
) -> Result<Command<'a>, AllocError>
    ensures app { (app : App) → IfOk command.entry (λ c. app_of c ≡ app)
        → IfOk result (λ c. app_of c ≡ with_rule app (option_arg name.entry.now)) }
    ensures local { IfOk command.entry (λ c. (out-Command c).has_globals ≡ false)
        → IfOk result (λ c. (out-Command c).has_globals ≡ false) }
{
    let command = command?;
    command.arg(option(alloc, name))
}

/// A command with its names, after its options.
fn with_names<'a>(
    alloc: Global,
    command: Result<Command<'a>, AllocError>,
) -> Result<Command<'a>, AllocError>
    ensures app { (app : App) → IfOk command.entry (λ c. app_of c ≡ app)
        → IfOk result (λ c. app_of c ≡ with_rule app names_arg) }
    ensures local { IfOk command.entry (λ c. (out-Command c).has_globals ≡ false)
        → IfOk result (λ c. (out-Command c).has_globals ≡ false) }
{
    let command = command?;
    command.arg(names(alloc))
}

/// A command without options.
fn naming<'a>(alloc: Global, name: &'a str) -> Result<Command<'a>, AllocError>
    ensures shape { IfOk result (λ c. shape_of c ≡ leaf_of name.entry.now (args_for [])) }
    ensures local { IfOk result (λ c. (out-Command c).has_globals ≡ false) }
{
    Command::new(alloc, name).arg(names(alloc))
}

/// A command that searches.
fn searching<'a>(alloc: Global, name: &'a str) -> Result<Command<'a>, AllocError>
    ensures shape { IfOk result (λ c. shape_of c
        ≡ leaf_of name.entry.now (args_for (codes "nodes" ∷ codes "workers" ∷ []))) }
    ensures local { IfOk result (λ c. (out-Command c).has_globals ≡ false) }
{
    let one = with_option(alloc, Ok(Command::new(alloc, name)), "nodes");
    let two = with_option(alloc, one, "workers");
    with_names(alloc, two)
}

/// A command that serves clients.
fn serving<'a>(alloc: Global, name: &'a str) -> Result<Command<'a>, AllocError>
    ensures shape { IfOk result (λ c. shape_of c ≡ leaf_of name.entry.now
        (args_for (codes "links" ∷ codes "port" ∷ codes "workers" ∷ []))) }
    ensures local { IfOk result (λ c. (out-Command c).has_globals ≡ false) }
{
    let one = with_option(alloc, Ok(Command::new(alloc, name)), "links");
    let two = with_option(alloc, one, "port");
    let three = with_option(alloc, two, "workers");
    with_names(alloc, three)
}

fn allocate<'a>(alloc: Global) -> Result<Command<'a>, AllocError>
    ensures shape { IfOk result (λ c. shape_of c ≡ command_shape allocate_command) }
    ensures local { IfOk result (λ c. (out-Command c).has_globals ≡ false) }
{
    searching(alloc, "allocate")
}

fn check<'a>(alloc: Global) -> Result<Command<'a>, AllocError>
    ensures shape { IfOk result (λ c. shape_of c ≡ command_shape check_command) }
    ensures local { IfOk result (λ c. (out-Command c).has_globals ≡ false) }
{
    naming(alloc, "check")
}

fn amend<'a>(alloc: Global) -> Result<Command<'a>, AllocError>
    ensures shape { IfOk result (λ c. shape_of c ≡ command_shape amend_command) }
    ensures local { IfOk result (λ c. (out-Command c).has_globals ≡ false) }
{
    naming(alloc, "amend")
}

fn serve<'a>(alloc: Global) -> Result<Command<'a>, AllocError>
    ensures shape { IfOk result (λ c. shape_of c ≡ command_shape serve_command) }
    ensures local { IfOk result (λ c. (out-Command c).has_globals ≡ false) }
{
    serving(alloc, "serve")
}

fn resume<'a>(alloc: Global) -> Result<Command<'a>, AllocError>
    ensures shape { IfOk result (λ c. shape_of c ≡ command_shape resume_command) }
    ensures local { IfOk result (λ c. (out-Command c).has_globals ≡ false) }
{
    serving(alloc, "resume")
}

fn usage<'a>(alloc: Global) -> Result<Command<'a>, AllocError>
    ensures shape { IfOk result (λ c. shape_of c ≡ command_shape usage_command) }
    ensures local { IfOk result (λ c. (out-Command c).has_globals ≡ false) }
{
    naming(alloc, "usage")
}

fn reclear<'a>(alloc: Global) -> Result<Command<'a>, AllocError>
    ensures shape { IfOk result (λ c. shape_of c ≡ command_shape reclear_command) }
    ensures local { IfOk result (λ c. (out-Command c).has_globals ≡ false) }
{
    searching(alloc, "reclear")
}

fn recheck<'a>(alloc: Global) -> Result<Command<'a>, AllocError>
    ensures shape { IfOk result (λ c. shape_of c ≡ command_shape recheck_command) }
    ensures local { IfOk result (λ c. (out-Command c).has_globals ≡ false) }
{
    naming(alloc, "recheck")
}

fn report<'a>(alloc: Global) -> Result<Command<'a>, AllocError>
    ensures shape { IfOk result (λ c. shape_of c ≡ command_shape report_command) }
    ensures local { IfOk result (λ c. (out-Command c).has_globals ≡ false) }
{
    naming(alloc, "report")
}

fn inspect<'a>(alloc: Global) -> Result<Command<'a>, AllocError>
    ensures shape { IfOk result (λ c. shape_of c ≡ command_shape inspect_command) }
    ensures local { IfOk result (λ c. (out-Command c).has_globals ≡ false) }
{
    naming(alloc, "inspect")
}

fn make<'a>(alloc: Global) -> Result<Command<'a>, AllocError>
    ensures shape { IfOk result (λ c. shape_of c ≡ command_shape make_command) }
    ensures local { IfOk result (λ c. (out-Command c).has_globals ≡ false) }
{
    naming(alloc, "make")
}

fn trial<'a>(alloc: Global) -> Result<Command<'a>, AllocError>
    ensures shape { IfOk result (λ c. shape_of c ≡ command_shape trial_command) }
    ensures local { IfOk result (λ c. (out-Command c).has_globals ≡ false) }
{
    naming(alloc, "trial")
}

fn bare<'a>(alloc: Global) -> Command<'a>
    ensures { app_of result ≡ bare_app }
{
    Command::new(alloc, "desk")
        .no_binary_name(true)
        .disable_help_flag(true)
        .disable_help_subcommand(true)
        .subcommand_required(true)
}

/// A desk with one command more.
fn with<'a>(
    desk: Result<Command<'a>, AllocError>,
    command: Result<Command<'a>, AllocError>,
) -> Result<Command<'a>, AllocError>
    ensures { (app : App) (shape : Shape) → IfOk desk.entry (λ d. app_of d ≡ app)
        → IfOk command.entry (λ c. shape_of c ≡ shape)
        → IfOk command.entry (λ c. (out-Command c).has_globals ≡ false)
        → IfOk result (λ c. app_of c ≡ with_subcommand app shape) }
{
    let desk = desk?;
    let command = command?;
    desk.subcommand(command)
}

/// The desk with the first of the commands that read a season's files.
fn reading_desk<'a>(alloc: Global) -> Result<Command<'a>, AllocError>
    ensures { IfOk result (λ c. app_of c ≡ reading_app) }
{
    let one = with(Ok(bare(alloc)), allocate(alloc));
    let two = with(one, check(alloc));
    with(two, amend(alloc))
}

/// The desk with those that go on from a certificate, too.
fn season_desk<'a>(alloc: Global) -> Result<Command<'a>, AllocError>
    ensures { IfOk result (λ c. app_of c ≡ season_app) }
{
    let one = with(reading_desk(alloc), serve(alloc));
    let two = with(one, resume(alloc));
    with(two, usage(alloc))
}

/// The desk with those of the waiting list, too.
fn waiting_desk<'a>(alloc: Global) -> Result<Command<'a>, AllocError>
    ensures { IfOk result (λ c. app_of c ≡ waiting_app) }
{
    let one = with(season_desk(alloc), reclear(alloc));
    with(one, recheck(alloc))
}

/// The desk with all commands that read a season's files.
fn telling_desk<'a>(alloc: Global) -> Result<Command<'a>, AllocError>
    ensures { IfOk result (λ c. app_of c ≡ telling_app) }
{
    let one = with(waiting_desk(alloc), report(alloc));
    with(one, inspect(alloc))
}

fn desk<'a>(alloc: Global) -> Result<Command<'a>, AllocError>
    ensures { IfOk result (λ c. app_of c ≡ desk_app) }
{
    let one = with(telling_desk(alloc), make(alloc));
    with(one, trial(alloc))
}

/// What `clap` finds in the words.
pub(crate) fn matches_in<'a>(alloc: Global, words: &'a [String]) -> Result<ArgMatches<'a>, Error>
    ensures kinds { FailsBy (fault_of desk_app (words_of words.entry.now)) result }
    ensures matches { IfOk result (HasMatchesOf desk_app (words_of words.entry.now)) }
{
    let command = desk(alloc)?;
    command.try_get_matches_from(words)
}

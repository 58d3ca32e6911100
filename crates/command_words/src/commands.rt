//! The program's commands, as clap is told of them.

ghost use Rattle.std.specs.Prelude.{◌≡◌, IfOk, codes, false};
ghost use Rattle.clap.specs.Words.{App, Rule, app_of, rule_of, with_rule, with_subcommand};
ghost use Rattle.command_words.specs.Made.{IsMadeAs};
ghost use Rattle.command_words.specs.Program.{address_option, audit_app, bare_program, files_app, gap_app, gen_app, grant_app, init_app, judge_app, mirror_option};
ghost use Rattle.command_words.specs.Program.{number_rule, or_else_is, program_app, program_file_app, required_number, required_option, required_word};
ghost use Rattle.command_words.specs.Program.{run_app, serve_app, with_mirror, with_word, workers_option, workers_rule};

use clap::builder::ValueParser;
use clap::{Arg, ArgAction, Command};
use std::alloc::{AllocError, Global};

/// The most workers of a run, a service or a generated run.
const GREATEST_WORKERS: i64 = 16;

/// The greatest amount of a grant, in millionths of epsilon.
const GREATEST_AMOUNT: i64 = 1_000_000_000_000_000_000;

/// The last port that a service's first worker may listen at: those of the others follow it.
const GREATEST_PORT: i64 = 65_520;

/// The most connections that each worker of a service serves.
const GREATEST_EACH: i64 = 1_000_000;

/// The last seed of a generated run, and its most asks.
const GREATEST_SEED: i64 = 4_294_967_295;

const GREATEST_ASKS: i64 = 100_000;

/// A word that must be given.
fn word<'a>(alloc: Global, name: &'a str) -> Arg<'a>
    ensures rule { rule_of result ≡ required_word name.entry.now }
    ensures local { result.global ≡ false }
{
    Arg::new(alloc, name).required(true)
}

/// A command with one more argument, where it was made.
fn with_arg<'a>(
    made: Result<Command<'a>, AllocError>,
    arg: Arg<'a>,
) -> Result<Command<'a>, AllocError>
    requires local { arg.global ≡ false }
    ensures { (app : App) (rule : Rule) → rule_of arg.entry ≡ rule → IfOk made.entry (IsMadeAs app) → IfOk result (IsMadeAs (with_rule app rule)) }
{
    match made {
        Ok(command) => command.arg(arg),
        Err(error) => Err(error),
    }
}

/// A command with one more word, where it was made.
fn with_word<'a>(
    alloc: Global,
    made: Result<Command<'a>, AllocError>,
    name: &'a str,
) -> Result<Command<'a>, AllocError>
    ensures { (app : App) → IfOk made.entry (IsMadeAs app) → IfOk result (IsMadeAs (with_word app name.entry.now)) }
{
    match made {
        Ok(command) => command.arg(word(alloc, name)),
        Err(error) => Err(error),
    }
}

/// The command of this name, with the names of a catalog, of an owner and of a program's file.
fn program_file_command<'a>(alloc: Global, name: &'a str) -> Result<Command<'a>, AllocError>
    ensures { IfOk result (IsMadeAs (program_file_app name.entry.now)) }
{
    let command = Ok(Command::new(alloc, name));
    let command = with_word(alloc, command, "catalog");
    let command = with_word(alloc, command, "owner");
    with_word(alloc, command, "file")
}

/// The command of this name, with the names of a catalog and of a key.
fn files_command<'a>(alloc: Global, name: &'a str) -> Result<Command<'a>, AllocError>
    ensures { IfOk result (IsMadeAs (files_app name.entry.now)) }
{
    let command = Ok(Command::new(alloc, name));
    let command = with_word(alloc, command, "catalog");
    with_word(alloc, command, "key")
}

/// A number in this range.
fn number<'a>(alloc: Global, name: &'a str, range: ValueParser<'a>) -> Arg<'a>
    ensures rule { rule_of result ≡ number_rule name.entry.now range.entry }
    ensures local { result.global ≡ false }
{
    Arg::new(alloc, name).value_parser(range)
}

/// A number that must be given as a word.
fn required_number<'a>(alloc: Global, name: &'a str, range: ValueParser<'a>) -> Arg<'a>
    ensures rule { rule_of result ≡ required_number name.entry.now range.entry }
    ensures local { result.global ≡ false }
{
    number(alloc, name, range).required(true)
}

/// A number that must be given behind its option.
fn required_option<'a>(alloc: Global, name: &'a str, range: ValueParser<'a>) -> Arg<'a>
    ensures rule { rule_of result ≡ required_option name.entry.now range.entry }
    ensures local { result.global ≡ false }
{
    required_number(alloc, name, range).long(name)
}

/// A number of workers, which is 1 where it isn't given.
fn workers<'a>(alloc: Global) -> Arg<'a>
    ensures rule { rule_of result ≡ or_else_is workers_rule (codes "1") }
    ensures local { result.global ≡ false }
{
    number(alloc, "workers", ValueParser::signed(1, GREATEST_WORKERS)).default_value("1")
}

/// `--workers W`.
fn workers_option<'a>(alloc: Global) -> Arg<'a>
    ensures rule { rule_of result ≡ workers_option }
    ensures local { result.global ≡ false }
{
    workers(alloc).long("workers")
}

/// `--addr A`, the address of this machine alone where it isn't given.
fn address_option<'a>(alloc: Global) -> Arg<'a>
    ensures rule { rule_of result ≡ address_option }
    ensures local { result.global ≡ false }
{
    Arg::new(alloc, "addr")
        .long("addr")
        .default_value("127.0.0.1")
}

/// `--mirror`.
fn mirror_option<'a>(alloc: Global) -> Arg<'a>
    ensures rule { rule_of result ≡ mirror_option }
    ensures local { result.global ≡ false }
{
    Arg::new(alloc, "mirror")
        .long("mirror")
        .action(ArgAction::SetTrue)
}

/// A command that may be told to keep each journal on two disks, where it was made.
fn with_mirror<'a>(
    alloc: Global,
    made: Result<Command<'a>, AllocError>,
) -> Result<Command<'a>, AllocError>
    ensures { (app : App) → IfOk made.entry (IsMadeAs app) → IfOk result (IsMadeAs (with_mirror app)) }
{
    with_arg(made, mirror_option(alloc))
}

/// `init CATALOG KEY --mirror`.
fn init_command<'a>(alloc: Global) -> Result<Command<'a>, AllocError>
    ensures { IfOk result (IsMadeAs init_app) }
{
    with_mirror(alloc, files_command(alloc, "init"))
}

/// `audit CATALOG KEY --mirror`.
fn audit_command<'a>(alloc: Global) -> Result<Command<'a>, AllocError>
    ensures { IfOk result (IsMadeAs audit_app) }
{
    with_mirror(alloc, files_command(alloc, "audit"))
}

/// `run CATALOG KEY --workers W --mirror`.
fn run_command<'a>(alloc: Global) -> Result<Command<'a>, AllocError>
    ensures { IfOk result (IsMadeAs run_app) }
{
    let command = with_arg(files_command(alloc, "run"), workers_option(alloc));
    with_mirror(alloc, command)
}

/// `grant CATALOG KEY OWNER AMOUNT --mirror`.
fn grant_command<'a>(alloc: Global) -> Result<Command<'a>, AllocError>
    ensures { IfOk result (IsMadeAs grant_app) }
{
    let amount = ValueParser::signed(1, GREATEST_AMOUNT);
    let command = with_word(alloc, files_command(alloc, "grant"), "owner");
    let command = with_arg(command, required_number(alloc, "amount", amount));
    with_mirror(alloc, command)
}

/// `gap CATALOG OWNER CATALOG2 FILE`.
fn gap_command<'a>(alloc: Global) -> Result<Command<'a>, AllocError>
    ensures { IfOk result (IsMadeAs gap_app) }
{
    let command = Ok(Command::new(alloc, "gap"));
    let command = with_word(alloc, command, "catalog");
    let command = with_word(alloc, command, "owner");
    let command = with_word(alloc, command, "second_catalog");
    with_word(alloc, command, "file")
}

/// `serve CATALOG KEY --addr A --port P --workers W --each N --mirror`.
fn serve_command<'a>(alloc: Global) -> Result<Command<'a>, AllocError>
    ensures { IfOk result (IsMadeAs serve_app) }
{
    let port = ValueParser::signed(1, GREATEST_PORT);
    let each = ValueParser::signed(1, GREATEST_EACH);
    let command = with_arg(files_command(alloc, "serve"), address_option(alloc));
    let command = with_arg(command, required_option(alloc, "port", port));
    let command = with_arg(command, workers_option(alloc));
    let command = with_arg(command, required_option(alloc, "each", each));
    with_mirror(alloc, command)
}

/// `gen SEED N WORKERS`.
fn gen_command<'a>(alloc: Global) -> Result<Command<'a>, AllocError>
    ensures { IfOk result (IsMadeAs gen_app) }
{
    let seed = ValueParser::signed(0, GREATEST_SEED);
    let asks = ValueParser::signed(1, GREATEST_ASKS);
    let command = Ok(Command::new(alloc, "gen"));
    let command = with_arg(command, required_number(alloc, "seed", seed));
    let command = with_arg(command, required_number(alloc, "asks", asks));
    with_arg(command, workers(alloc))
}

/// `judge CATALOG OWNER FILE DERIVATION`.
fn judge_command<'a>(alloc: Global) -> Result<Command<'a>, AllocError>
    ensures { IfOk result (IsMadeAs judge_app) }
{
    with_word(alloc, program_file_command(alloc, "judge"), "derivation")
}

/// The program without its commands, of which one is required. Calls for help and for the version are no words of it.
fn bare_program<'a>(alloc: Global) -> Command<'a>
    ensures { app_of result ≡ bare_program }
{
    Command::new(alloc, "hitchseason")
        .no_binary_name(true)
        .subcommand_required(true)
        .disable_help_flag(true)
        .disable_help_subcommand(true)
}

/// The program with one more command, where both were made.
fn with_command<'a>(
    program: Result<Command<'a>, AllocError>,
    made: Result<Command<'a>, AllocError>,
) -> Result<Command<'a>, AllocError>
    ensures { (app put : App) → IfOk program.entry (λ c. app_of c ≡ app) → IfOk made.entry (IsMadeAs put) →
        IfOk result (λ r. app_of r ≡ with_subcommand app put.top) }
{
    match program {
        Ok(program) => match made {
            Ok(command) => program.subcommand(command),
            Err(error) => Err(error),
        },
        Err(error) => Err(error),
    }
}

/// The program with its commands.
pub fn program_command<'a>(alloc: Global) -> Result<Command<'a>, AllocError>
    ensures { IfOk result (λ c. app_of c ≡ program_app) }
{
    let program = Ok(bare_program(alloc));
    let program = with_command(program, program_file_command(alloc, "check"));
    let program = with_command(program, init_command(alloc));
    let program = with_command(program, run_command(alloc));
    let program = with_command(program, audit_command(alloc));
    let program = with_command(program, grant_command(alloc));
    let program = with_command(program, gap_command(alloc));
    let program = with_command(program, serve_command(alloc));
    let program = with_command(program, gen_command(alloc));
    let program = with_command(program, program_file_command(alloc, "derive"));
    with_command(program, judge_command(alloc))
}

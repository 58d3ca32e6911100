//! Words to a command.

ghost use Rattle.std.specs.Prelude.{◌≡◌, ◌≢◌, [], IfErr, IfOk, None, Some, map, option_map, string_bytes};
ghost use Rattle.clap.specs.Words.{fault_of, first_of, found_of, rows_of, subcommand_of, subcommand_rows_of};
ghost use Rattle.command_words.specs.Command.{amount_in, audit_found_in, check_found_in, command_met, command_of, derive_found_in, gap_found_in};
ghost use Rattle.command_words.specs.Command.{gen_found_in, grant_found_in, init_found_in, judge_found_in, number_in, run_found_in, serve_found_in};
ghost use Rattle.command_words.specs.Program.{program_app};
ghost use Rattle.command_words.specs.Meant.{command_meant};

use crate::commands::program_command;
use clap::ArgMatches;
use clap::error::ErrorKind;
use std::alloc::Global;

/// A command, with the names in it.
#[derive(Clone, Copy, PartialEq, Eq)]
pub enum Command<'a> {
    Check {
        catalog: &'a str,
        owner: &'a str,
        file: &'a str,
    },
    Init {
        catalog: &'a str,
        key: &'a str,
    },
    Run {
        catalog: &'a str,
        key: &'a str,
        workers: u32,
    },
    Audit {
        catalog: &'a str,
        key: &'a str,
    },
    Grant {
        catalog: &'a str,
        key: &'a str,
        owner: &'a str,
        amount: u64,
    },
    Gap {
        catalog: &'a str,
        owner: &'a str,
        second_catalog: &'a str,
        file: &'a str,
    },
    Serve {
        catalog: &'a str,
        key: &'a str,
        address: &'a str,
        port: u32,
        workers: u32,
        each: u32,
    },
    Gen {
        seed: u32,
        asks: u32,
        workers: u32,
    },
    Derive {
        catalog: &'a str,
        owner: &'a str,
        file: &'a str,
    },
    Judge {
        catalog: &'a str,
        owner: &'a str,
        file: &'a str,
        derivation: &'a str,
    },
}

/// Why there is no command.
#[derive(Clone, Copy, PartialEq, Eq)]
pub enum WordsFault {
    /// The words are none.
    Usage,
    NoMemory,
}

/// What clap finds in the words.
fn matches_of<'a>(alloc: Global, words: &'a [String]) -> Result<ArgMatches<'a>, WordsFault>
    ensures taken { IfOk result (λ m. fault_of program_app (map string_bytes words.entry.now) ≡ []) }
    ensures found { IfOk result (λ m. subcommand_rows_of m ≡ subcommand_of program_app (map string_bytes words.entry.now)) }
    ensures refused { IfErr result (λ e. e ≡ WordsFault.Usage → fault_of program_app (map string_bytes words.entry.now) ≢ []) }
{
    let Ok(command) = program_command(alloc) else {
        return Err(WordsFault::NoMemory);
    };
    match command.try_get_matches_from(words) {
        Ok(matches) => Ok(matches),
        Err(error) => match error.kind() {
            ErrorKind::OutOfMemory => Err(WordsFault::NoMemory),
            _ => Err(WordsFault::Usage),
        },
    }
}

/// The text that was found under this name.
fn text_found<'a>(found: &ArgMatches<'a>, name: &str) -> Option<&'a str>
    ensures { option_map (λ s. s.now) result ≡ first_of name.now (rows_of (found_of found.now)) }
{
    found.get_str(name)
}

/// The number that was found under this name.
fn number_found(found: &ArgMatches, name: &str) -> Option<u32>
    ensures { result ≡ number_in name.now (rows_of (found_of found.now)) }
{
    found.get_one::<u32>(name)
}

/// The amount that was found under this name.
fn amount_found(found: &ArgMatches, name: &str) -> Option<u64>
    ensures { result ≡ amount_in name.now (rows_of (found_of found.now)) }
{
    found.get_one::<u64>(name)
}

/// `check`, with what was found for it.
fn check_found<'a>(found: &ArgMatches<'a>) -> Option<Command<'a>>
    ensures { option_map command_meant result ≡ check_found_in (rows_of (found_of found.now)) }
{
    Some(Command::Check {
        catalog: text_found(found, "catalog")?,
        owner: text_found(found, "owner")?,
        file: text_found(found, "file")?,
    })
}

/// `init`, with what was found for it.
fn init_found<'a>(found: &ArgMatches<'a>) -> Option<Command<'a>>
    ensures { option_map command_meant result ≡ init_found_in (rows_of (found_of found.now)) }
{
    Some(Command::Init {
        catalog: text_found(found, "catalog")?,
        key: text_found(found, "key")?,
    })
}

/// `run`, with what was found for it.
fn run_found<'a>(found: &ArgMatches<'a>) -> Option<Command<'a>>
    ensures { option_map command_meant result ≡ run_found_in (rows_of (found_of found.now)) }
{
    Some(Command::Run {
        catalog: text_found(found, "catalog")?,
        key: text_found(found, "key")?,
        workers: number_found(found, "workers")?,
    })
}

/// `audit`, with what was found for it.
fn audit_found<'a>(found: &ArgMatches<'a>) -> Option<Command<'a>>
    ensures { option_map command_meant result ≡ audit_found_in (rows_of (found_of found.now)) }
{
    Some(Command::Audit {
        catalog: text_found(found, "catalog")?,
        key: text_found(found, "key")?,
    })
}

/// `grant`, with what was found for it.
fn grant_found<'a>(found: &ArgMatches<'a>) -> Option<Command<'a>>
    ensures { option_map command_meant result ≡ grant_found_in (rows_of (found_of found.now)) }
{
    Some(Command::Grant {
        catalog: text_found(found, "catalog")?,
        key: text_found(found, "key")?,
        owner: text_found(found, "owner")?,
        amount: amount_found(found, "amount")?,
    })
}

/// `gap`, with what was found for it.
fn gap_found<'a>(found: &ArgMatches<'a>) -> Option<Command<'a>>
    ensures { option_map command_meant result ≡ gap_found_in (rows_of (found_of found.now)) }
{
    Some(Command::Gap {
        catalog: text_found(found, "catalog")?,
        owner: text_found(found, "owner")?,
        second_catalog: text_found(found, "second_catalog")?,
        file: text_found(found, "file")?,
    })
}

/// `serve`, with what was found for it.
fn serve_found<'a>(found: &ArgMatches<'a>) -> Option<Command<'a>>
    ensures { option_map command_meant result ≡ serve_found_in (rows_of (found_of found.now)) }
{
    Some(Command::Serve {
        catalog: text_found(found, "catalog")?,
        key: text_found(found, "key")?,
        address: text_found(found, "addr")?,
        port: number_found(found, "port")?,
        workers: number_found(found, "workers")?,
        each: number_found(found, "each")?,
    })
}

/// `gen`, with what was found for it.
fn gen_found<'a>(found: &ArgMatches<'a>) -> Option<Command<'a>>
    ensures { option_map command_meant result ≡ gen_found_in (rows_of (found_of found.now)) }
{
    Some(Command::Gen {
        seed: number_found(found, "seed")?,
        asks: number_found(found, "asks")?,
        workers: number_found(found, "workers")?,
    })
}

/// `derive`, with what was found for it.
fn derive_found<'a>(found: &ArgMatches<'a>) -> Option<Command<'a>>
    ensures { option_map command_meant result ≡ derive_found_in (rows_of (found_of found.now)) }
{
    Some(Command::Derive {
        catalog: text_found(found, "catalog")?,
        owner: text_found(found, "owner")?,
        file: text_found(found, "file")?,
    })
}

/// `judge`, with what was found for it.
fn judge_found<'a>(found: &ArgMatches<'a>) -> Option<Command<'a>>
    ensures { option_map command_meant result ≡ judge_found_in (rows_of (found_of found.now)) }
{
    Some(Command::Judge {
        catalog: text_found(found, "catalog")?,
        owner: text_found(found, "owner")?,
        file: text_found(found, "file")?,
        derivation: text_found(found, "derivation")?,
    })
}

/// The command that was found.
fn command_found<'a>(matches: &ArgMatches<'a>) -> Option<Command<'a>>
    ensures { option_map command_meant result ≡ command_met (subcommand_rows_of matches.now) }
{
    match matches.subcommand() {
        Some(("check", found)) => check_found(found),
        Some(("init", found)) => init_found(found),
        Some(("run", found)) => run_found(found),
        Some(("audit", found)) => audit_found(found),
        Some(("grant", found)) => grant_found(found),
        Some(("gap", found)) => gap_found(found),
        Some(("serve", found)) => serve_found(found),
        Some(("gen", found)) => gen_found(found),
        Some(("derive", found)) => derive_found(found),
        Some(("judge", found)) => judge_found(found),
        _ => None,
    }
}

/// The command that the words are; they leave out the program's own name.
///
/// - `check CATALOG OWNER FILE`
/// - `init CATALOG KEY`
/// - `run CATALOG KEY`, perhaps with `--workers W`: W is from 1 to 16, and 1 where it isn't given.
/// - `audit CATALOG KEY`
/// - `grant CATALOG KEY OWNER AMOUNT`: AMOUNT is from 1 to 10^18.
/// - `gap CATALOG OWNER CATALOG2 FILE`
/// - `serve CATALOG KEY --port P --each N`, perhaps with `--addr A` and `--workers W`: P is from 1 to 65,520, N from 1 to 1,000,000,
///   and A is 127.0.0.1 where it isn't given.
/// - `gen SEED N`, perhaps with WORKERS behind them, 1 where they aren't given: SEED is below 2^32, and N from 1 to 100,000.
/// - `derive CATALOG OWNER FILE`
/// - `judge CATALOG OWNER FILE DERIVATION`
///
/// `init`, `run`, `audit`, `grant` and `serve` may have the flag `--mirror`, once. `is_mirrored` says whether it is there.
///
/// `Usage` comes exactly where clap's parse of the words answers a fault, and `NoMemory` may come at any words.
#[tactic(auto, using(crate::proofs::Parses::command_taken, crate::proofs::Parses::command_refused))]
pub fn read_words<'a>(alloc: Global, words: &'a [String]) -> Result<Command<'a>, WordsFault>
    ensures read { IfOk result (λ c. command_of (map string_bytes words.entry.now) ≡ Some (command_meant c)) }
    ensures refused { IfErr result (λ e. e ≡ WordsFault.Usage → command_of (map string_bytes words.entry.now) ≡ None) }
{
    let matches = matches_of(alloc, words)?;
    command_found(&matches).ok_or(WordsFault::Usage)
}

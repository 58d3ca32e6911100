//! Words of each kind that pass, and each kind of fault.

use command_words::{
    Command, WordsFault, faults_alone_are_no_command, grants_are_in_range, is_mirrored,
    plain_words_are_a_table, read_words, workers_are_in_range, workers_are_said_by_a_number,
};
use std::alloc::{AllocError, Global};

fn words_of(alloc: Global, texts: &[&str]) -> Result<Vec<String>, AllocError> {
    let mut words = Vec::new(alloc);
    for text in texts {
        words.push(String::from_str(alloc, text)?)?;
    }
    Ok(words)
}

// Words, and the command that they are.
#[rattlefmt::skip]
const COMMANDS: [(&[&str], Command<'static>); 23] = [
    // each command
    (&["check", "c", "o", "f"], Command::Check { catalog: "c", owner: "o", file: "f" }),
    (&["init", "c", "k"], Command::Init { catalog: "c", key: "k" }),
    (&["run", "c", "k"], RUN),
    (&["audit", "c", "k"], Command::Audit { catalog: "c", key: "k" }),
    (&["gap", "c", "o", "d", "f"], Command::Gap { catalog: "c", owner: "o", second_catalog: "d", file: "f" }),
    (&["grant", "c", "k", "o", "5"], Command::Grant { catalog: "c", key: "k", owner: "o", amount: 5 }),
    // the least and the greatest grant, and another numeral
    (&["grant", "c", "k", "o", "1"], Command::Grant { catalog: "c", key: "k", owner: "o", amount: 1 }),
    (&["grant", "c", "k", "o", "1000000000000000000"], Command::Grant { catalog: "c", key: "k", owner: "o", amount: 1_000_000_000_000_000_000 }),
    (&["grant", "c", "k", "-", "+07"], Command::Grant { catalog: "c", key: "k", owner: "-", amount: 7 }),
    // the option, at each place, in both forms, with each numeral of 1
    (&["run", "c", "k", "--workers", "1"], RUN),
    (&["run", "c", "--workers", "1", "k"], RUN),
    (&["run", "--workers", "1", "c", "k"], RUN),
    (&["run", "c", "k", "--workers=1"], RUN),
    (&["run", "c", "k", "--workers", "01"], RUN),
    (&["run", "c", "k", "--workers", "+1"], RUN),
    // the most workers
    (&["run", "c", "k", "--workers", "16"], Command::Run { catalog: "c", key: "k", workers: 16 }),
    // the flag, of each command of journals
    (&["init", "--mirror", "c", "k"], Command::Init { catalog: "c", key: "k" }),
    (&["run", "c", "k", "--mirror"], RUN),
    (&["audit", "c", "--mirror", "k"], Command::Audit { catalog: "c", key: "k" }),
    (&["grant", "c", "k", "o", "5", "--mirror"], Command::Grant { catalog: "c", key: "k", owner: "o", amount: 5 }),
    (&["serve", "c", "k", "--mirror", "--port", "1", "--each", "1"], SERVE),
    // names that begin with a hyphen, or are empty
    (&["run", "--", "-c", "--workers"], Command::Run { catalog: "-c", key: "--workers", workers: 1 }),
    (&["run", "-", ""], Command::Run { catalog: "-", key: "", workers: 1 }),
];

// The commands of derivations: a longer list above takes the prover too many steps.
#[rattlefmt::skip]
const DERIVATIONS: [(&[&str], Command<'static>); 2] = [
    (&["derive", "c", "o", "f"], Command::Derive { catalog: "c", owner: "o", file: "f" }),
    (&["judge", "c", "o", "f", "d"], Command::Judge { catalog: "c", owner: "o", file: "f", derivation: "d" }),
];

const RUN: Command<'static> = Command::Run {
    catalog: "c",
    key: "k",
    workers: 1,
};

const SERVE: Command<'static> = Command::Serve {
    catalog: "c",
    key: "k",
    address: "127.0.0.1",
    port: 1,
    workers: 1,
    each: 1,
};

#[test]
fn reads_commands(rt: HostRuntime) -> Result<(), AllocError> {
    for (texts, command) in &COMMANDS {
        let words = words_of(rt.alloc(), texts)?;
        assert!(rt; read_words(rt.alloc(), &words) == Ok(*command), "{texts:?}");
        assert!(rt;
            is_mirrored(&words) == texts.contains(&"--mirror"),
            "{texts:?}"
        );
    }
    Ok(())
}

#[test]
fn reads_commands_of_derivations(rt: HostRuntime) -> Result<(), AllocError> {
    for (texts, command) in &DERIVATIONS {
        let words = words_of(rt.alloc(), texts)?;
        assert!(rt; read_words(rt.alloc(), &words) == Ok(*command), "{texts:?}");
    }
    Ok(())
}

#[test]
fn refuses_an_empty_word(rt: HostRuntime) -> Result<(), AllocError> {
    let words = words_of(rt.alloc(), &[""])?;
    assert!(rt; read_words(rt.alloc(), &words) == Err(WordsFault::Usage));
    Ok(())
}

#[test]
fn laws_are_there(_rt: HostRuntime) {
    faults_alone_are_no_command();
    grants_are_in_range();
    workers_are_in_range();
    workers_are_said_by_a_number();
    plain_words_are_a_table();
}

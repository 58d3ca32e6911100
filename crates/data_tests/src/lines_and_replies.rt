//! Lines with texts from the protocol's description. Rows are gone through in functions without the handle: beside it each row is dear to prove.

ghost use Rattle.std.specs.Prelude.{◌<◌};

use fz_frac::{Frac, Sens};
use journal_records::records::Outcome;
use wire_lines::LineRefusal::Malformed;
use wire_lines::Request::{Ask, AskPart};
use wire_lines::{
    DiskRefusal, LINE_LIMIT, LineRefusal, MoneyRefusal, Name, NumberRefusal, ProgramRefusal,
    REPLY_LIMIT, Refusal, Reply, Request, TypeFault, epsilons_are_read_by_the_grammar,
    lines_are_read_by_the_grammar, next_line, read_request, replies_differ_in_their_texts,
    write_reply,
};

// Asks of census, their epsilons and programs.
#[rattlefmt::skip]
const ASKS: [(&[u8], Option<u32>, &[u8]); 10] = [
    (b"ask census 0.5 size people", Some(500_000), b"size people"),
    (b"ask census 0.000001 a  b ", Some(1), b"a  b "),
    (b"ask census 1000 1", Some(1_000_000_000), b"1"),
    (b"ask census 0001.0 1", Some(1_000_000), b"1"),
    (b"ask census 0 size people", None, b"size people"),
    (b"ask census 1. 1", None, b"1"),
    (b"ask census 0.0000001 1", None, b"1"),
    (b"ask census 1000.000001 1", None, b"1"),
    (b"ask census 00001 1", None, b"1"),
    (b"ask census 1 ", Some(1_000_000), b""),
];

// Asks of the part A of census's area.
#[rattlefmt::skip]
const ASKS_OF_A_PART: [(&[u8], Option<u32>, &[u8]); 2] = [
    (b"askpart census area A 0.000006 size people", Some(6), b"size people"),
    (b"askpart census area A 1 ", Some(1_000_000), b""),
];

#[rattlefmt::skip]
const OTHERS: [(&[u8], Request<'static>); 5] = [
    (b"hello ann", Request::Hello { analyst: b"ann" }),
    (b"recall census 0000000012", Request::Recall { owner: b"census", number: 12 }),
    (b"left census", Request::Left { owner: b"census" }),
    (b"mine census", Request::Mine { owner: b"census" }),
    (b"bye", Request::Bye),
];

fn is_read(line: &[u8], want: Request<'_>) -> bool {
    match read_request(line) {
        Ok(request) => request == want,
        Err(_) => false,
    }
}

fn are_asks(rows: &[(&[u8], Option<u32>, &[u8])]) -> bool {
    for (line, epsilon, program) in rows {
        let (owner, epsilon) = (b"census", *epsilon);
        if !is_read(
            line,
            Ask {
                owner,
                epsilon,
                program,
            },
        ) {
            return false;
        }
    }
    true
}

fn are_asks_of_a_part(rows: &[(&[u8], Option<u32>, &[u8])]) -> bool {
    for (line, epsilon, program) in rows {
        let want = AskPart {
            owner: b"census",
            partition: b"area",
            key: b"A",
            epsilon: *epsilon,
            program,
        };
        if !is_read(line, want) {
            return false;
        }
    }
    true
}

fn are_read(rows: &[(&[u8], Request<'_>)]) -> bool {
    for (line, want) in rows {
        if !is_read(line, *want) {
            return false;
        }
    }
    true
}

fn reads_asks() -> bool {
    are_asks(&ASKS) && are_asks_of_a_part(&ASKS_OF_A_PART)
}

fn reads_others() -> bool {
    are_read(&OTHERS)
}

#[test]
fn reads_requests(rt: HostRuntime) {
    assert!(rt; reads_asks() && reads_others());
}

// Lines that are none, and the word where that is seen.
#[rattlefmt::skip]
const MALFORMED: [(&[u8], u32); 20] = [
    (b"hello", 1),
    (b"hello ", 1),
    (b"hello  ann", 1),
    (b"hello ann ", 2),
    (b"hello ann x", 2),
    (b"ask census 1", 3),
    (b"ask census  1 x", 2),
    (b"ask", 1),
    (b"ASK census 1 1", 0),
    (b"recall census", 2),
    (b"recall census 4294967296", 2),
    (b"recall census 00000000012", 2),
    (b"recall census 1 2", 3),
    (b"left", 1),
    (b"mine", 1),
    (b"mine census x", 2),
    (b"askpart census area A 1", 5),
    (b"askpart census area A", 4),
    (b"bye ", 1),
    (b"", 0),
];

fn malformed(word: u32) -> Result<Request<'static>, LineRefusal> {
    Err(Malformed { word })
}

fn are_malformed(rows: &[(&[u8], u32)]) -> bool {
    for (line, word) in rows {
        if read_request(line) != malformed(*word) {
            return false;
        }
    }
    true
}

#[test]
fn refuses_lines(rt: HostRuntime) {
    assert!(rt; are_malformed(&MALFORMED));
}

// Whether a line is too long, and without its first byte isn't.
fn is_just_too_long(line: &[u8]) -> bool {
    match line {
        [_, rest @ ..] => {
            read_request(line) == Err(LineRefusal::TooLong) && read_request(rest) == malformed(0)
        }
        [] => false,
    }
}

#[test]
fn skips_long_lines(rt: HostRuntime) {
    assert!(rt; is_just_too_long(&[b'x'; LINE_LIMIT + 1]));
}

// Whether a script is these lines and nothing behind them.
fn is_cut(script: &[u8], lines: &[&[u8]]) -> bool {
    let mut rest = script;
    for want in lines {
        match next_line(rest) {
            Some((line, after)) if line == *want => rest = after,
            _ => return false,
        }
    }
    rest.is_empty() && next_line(rest).is_none()
}

#[test]
fn cuts_scripts(rt: HostRuntime) {
    let script = b"hello ann\r\n\na\rb\r\r\nbye\n\r";
    assert!(rt; is_cut(script, &[b"hello ann", b"", b"a\rb\r", b"bye", b""]));
    assert!(rt; is_cut(b"bye", &[b"bye"]));
}

fn writes(reply: Reply<'_>, want: &[u8]) -> bool {
    let mut out = [0; REPLY_LIMIT];
    let len = write_reply(&reply, &mut out);
    &out[..len] == want
}

const TABLE: Name<'static> = Name {
    bytes: b"a_name_of_thirty_two_bytes_00001",
};

#[rattlefmt::skip]
const ANSWERS: [(Reply<'static>, &[u8]); 6] = [
    (Reply::Answer { number: 0, value: -5, taken: 1_000_000 }, b"answer 0 -5 1000000\n"),
    (Reply::Answer { number: u32::MAX, value: i64::MIN, taken: 1 }, b"answer 4294967295 -9223372036854775808 1\n"),
    (Reply::Recalled { number: 0, outcome: Some(Outcome::Answered(5)), seen: 2 }, b"recall 0 answer 5 2\n"),
    (Reply::Recalled { number: 0, outcome: None, seen: 2 }, b"recall 0 open 2\n"),
    (Reply::Recalled { number: 0, outcome: Some(Outcome::Lost), seen: 2 }, b"recall 0 lost 2\n"),
    (Reply::Recalled { number: 0, outcome: Some(Outcome::Exhausted), seen: 2 }, b"recall 0 exhausted 2\n"),
];

#[rattlefmt::skip]
const REPLIES: [(Reply<'static>, &[u8]); 6] = [
    (Reply::Hello { analyst: Name { bytes: b"ann" } }, b"hello ann\n"),
    (Reply::Left { spent: 1_000_000, budget: 10_000_000, seen: 1 }, b"left 1000000 10000000 1\n"),
    (Reply::Mine { spent: 6, limit: Some(10), seen: 4 }, b"mine 6 10 4\n"),
    (Reply::Mine { spent: 0, limit: None, seen: 0 }, b"mine 0 none 0\n"),
    (Reply::Bye, b"bye\n"),
    (Reply::Refused(Refusal::Program(ProgramRefusal::Unbounded { table: TABLE })), b"no 33 a_name_of_thirty_two_bytes_00001\n"),
];

fn are_written(rows: &[(Reply<'_>, &[u8])]) -> bool {
    for (reply, want) in rows {
        if !writes(*reply, want) {
            return false;
        }
    }
    true
}

fn writes_answers() -> bool {
    are_written(&ANSWERS)
}

fn writes_others() -> bool {
    are_written(&REPLIES)
}

#[test]
fn writes_replies(rt: HostRuntime) {
    assert!(rt; writes_answers() && writes_others());
}

fn frac(p: u64, q: u64) -> Sens
    requires { 0 < q }
{
    match Frac::new(p, q) {
        Ok(sens) => Sens::Finite(sens),
        Err(_) => Sens::Inf,
    }
}

// Refusals of lines, of programs, and the others.
#[rattlefmt::skip]
const OF_LINES: [(LineRefusal, &[u8]); 5] = [
    (LineRefusal::Malformed { word: 2 }, b"no 10 2\n"),
    (LineRefusal::TooLong, b"no 11\n"),
    (LineRefusal::Unknown { word: 1 }, b"no 12 1\n"),
    (LineRefusal::NoEpsilon, b"no 13\n"),
    (LineRefusal::NoHello, b"no 14\n"),
];

#[rattlefmt::skip]
const OF_PROGRAMS: [(ProgramRefusal<'static>, &[u8]); 12] = [
    (ProgramRefusal::NoToken { place: 12 }, b"no 20 12\n"),
    (ProgramRefusal::NoTerm { token: 1 }, b"no 21 1\n"),
    (ProgramRefusal::TooNested { depth: 65 }, b"no 22 65\n"),
    (ProgramRefusal::IllTyped { fault: TypeFault::Unbound, from: 0, to: 4 }, b"no 30 unbound 0 4\n"),
    (ProgramRefusal::IllTyped { fault: TypeFault::Mismatch, from: 0, to: 4 }, b"no 30 mismatch 0 4\n"),
    (ProgramRefusal::IllTyped { fault: TypeFault::NotGround, from: 0, to: 4 }, b"no 30 notground 0 4\n"),
    (ProgramRefusal::IllTyped { fault: TypeFault::NotFlat, from: 0, to: 4 }, b"no 30 notflat 0 4\n"),
    (ProgramRefusal::OutOfRange { from: 0, to: 14 }, b"no 32 0 14\n"),
    (ProgramRefusal::NoNumber, b"no 34\n"),
    (ProgramRefusal::TooDeep { from: 3, to: 11 }, b"no 35 3 11\n"),
    (ProgramRefusal::TooLong { from: 0, to: 15999 }, b"no 36 0 15999\n"),
    (ProgramRefusal::TooWide { from: 4, to: 11, width: 65 }, b"no 37 4 11 65\n"),
];

#[rattlefmt::skip]
const OF_OTHERS: [(Refusal<'static>, &[u8]); 10] = [
    (Refusal::Money(MoneyRefusal::OverBudget { spent: 1, after: 3, budget: 2, seen: 4 }), b"no 40 1 3 2 4\n"),
    (Refusal::Money(MoneyRefusal::JournalFull { used: 100, open: 0, capacity: 100 }), b"no 41 100 0 100\n"),
    (Refusal::Money(MoneyRefusal::OverShare { spent: 6, after: 11, limit: 10, seen: 4 }), b"no 43 6 11 10 4\n"),
    (Refusal::Number(NumberRefusal::Exhausted { number: 7 }), b"no 50 7\n"),
    (Refusal::Number(NumberRefusal::Lost { number: 8 }), b"no 51 8\n"),
    (Refusal::Disk(DiskRefusal::Closed { failed_at: 1 }), b"no 42 1\n"),
    (Refusal::Disk(DiskRefusal::Fault), b"no 52\n"),
    (Refusal::Number(NumberRefusal::Unknown { number: 1, seen: 2 }), b"no 60 1 2\n"),
    (Refusal::Number(NumberRefusal::NotYours { number: 0, seen: 2 }), b"no 61 0 2\n"),
    (Refusal::NoMemory, b"no 90\n"),
];

fn are_of_lines(rows: &[(LineRefusal, &[u8])]) -> bool {
    for (refusal, want) in rows {
        if !writes(Reply::Refused(Refusal::Line(*refusal)), want) {
            return false;
        }
    }
    true
}

fn are_of_programs(rows: &[(ProgramRefusal<'_>, &[u8])]) -> bool {
    for (refusal, want) in rows {
        if !writes(Reply::Refused(Refusal::Program(*refusal)), want) {
            return false;
        }
    }
    true
}

fn are_of_others(rows: &[(Refusal<'_>, &[u8])]) -> bool {
    for (refusal, want) in rows {
        if !writes(Reply::Refused(*refusal), want) {
            return false;
        }
    }
    true
}

fn refuses_bad_lines() -> bool {
    are_of_lines(&OF_LINES)
}

fn refuses_programs() -> bool {
    are_of_programs(&OF_PROGRAMS)
}

fn refuses_others() -> bool {
    are_of_others(&OF_OTHERS)
}

#[test]
fn writes_refusals(rt: HostRuntime) {
    assert!(rt; refuses_bad_lines() && refuses_programs() && refuses_others());
}

fn writes_sensitivity(sens: Sens, want: &[u8]) -> bool {
    let (from, to) = (1, 9);
    let refusal = Refusal::Program(ProgramRefusal::TooSensitive { from, to, sens });
    writes(Reply::Refused(refusal), want)
}

#[test]
fn writes_sensitivities(rt: HostRuntime) {
    assert!(rt; writes_sensitivity(frac(3, 2), b"no 31 1 9 3/2\n"));
    assert!(rt; writes_sensitivity(Sens::whole(2), b"no 31 1 9 2\n"));
    assert!(rt; writes_sensitivity(Sens::Inf, b"no 31 1 9 inf\n"));
}

#[test]
fn laws_are_there(_rt: HostRuntime) {
    lines_are_read_by_the_grammar();
    epsilons_are_read_by_the_grammar();
    replies_differ_in_their_texts();
}

//! Programs by hand, and a plain reader that tries each length.
use crate::programs::{joined, letters};
use fz_lexer::{Kind, LexFault, Token, lex};
use std::alloc::{AllocError, Global};
use std::test::Fail;

// The spans one after another, or the fault with its place.
fn outcome(alloc: Global, bytes: &[u8]) -> Result<String, AllocError> {
    match lex(alloc, bytes) {
        Ok(tokens) => {
            let mut text = String::new(alloc);
            for token in tokens.iter() {
                text.push_str(&show(alloc, token)?)?;
            }
            Ok(text)
        }
        Err(LexFault::Bad { place }) => format!(in alloc; "bad {place}"),
        Err(LexFault::TooManyTokens { place }) => format!(in alloc; "too many {place}"),
        Err(LexFault::NoMemory) => format!(in alloc; "no memory"),
    }
}

fn show(alloc: Global, token: &Token) -> Result<String, AllocError> {
    let kind = kind_text(alloc, &token.kind)?;
    let (from, to) = (token.span.from, token.span.to);
    format!(in alloc; "{kind}@{from}-{to} ")
}

fn kind_text(alloc: Global, kind: &Kind) -> Result<String, AllocError> {
    match kind {
        Kind::Name(name) => format!(in alloc; "name {}", letters(alloc, name.as_bytes())?),
        Kind::Number(number) => format!(in alloc; "{number}"),
        Kind::Text(inner) => format!(in alloc; "text {}", letters(alloc, inner.as_bytes())?),
        Kind::Reserved(word) => format!(in alloc; "{word:?}"),
        Kind::Punctuation(sign) => format!(in alloc; "{sign:?}"),
    }
}

// Programs, with their tokens and spans or their fault.
#[rattlefmt::skip]
static PROGRAMS: [(&[u8], &str); 30] = [
    (b"", ""),
    (b" \t\r\n", ""),
    (b"size people", "Size@0-4 name people@5-11 "),
    (b"size people $", "bad 12"),
    (b"\"", "bad 0"),
    (b"\"a\"", "text a@0-3 "),
    (b"\"a", "bad 0"),
    (b"\"\"\"\"", "text @0-2 text @2-4 "),
    (b"\"\x7f\"", "bad 0"),
    (b"\"\x80\xff\"", "text \u{80}\u{ff}@0-4 "),
    (b"\0", "bad 0"),
    (b"1125899906842624", "1125899906842624@0-16 "),
    (b"1125899906842625", "bad 0"),
    (b"0000000000000000000000000000007", "7@0-31 "),
    (b"1x", "1@0-1 name x@1-2 "),
    (b"x1_", "name x1_@0-3 "),
    (b"abcdefghijklmnopqrstuvwxyz0123456", "bad 0"),
    (b"fun funx", "Fun@0-3 name funx@4-8 "),
    (b"do release at", "Do@0-2 Release@3-10 At@11-13 "),
    (b"1 -one", "1@0-1 Minus@2-3 name one@3-6 "),
    (b"1 -o 2", "1@0-1 Lollipop@2-4 2@5-6 "),
    (b"-o", "Lollipop@0-2 "),
    (b"-o1", "Minus@0-1 name o1@1-3 "),
    (b"->-=>===<=<-", "Arrow@0-2 Minus@2-3 Yields@3-5 EqualTo@5-7 Is@7-8 AtMost@8-10 LeftAngle@10-11 Minus@11-12 "),
    (b"()<>[],:=!|+-*&/", "LeftParenthesis@0-1 RightParenthesis@1-2 \
        LeftAngle@2-3 RightAngle@3-4 LeftBracket@4-5 RightBracket@5-6 Comma@6-7 Colon@7-8 Is@8-9 \
        Bang@9-10 Bar@10-11 Plus@11-12 Minus@12-13 Star@13-14 Ampersand@14-15 Slash@15-16 "),
    (b"fn let in case of inl inr if then else", "Fn@0-2 Let@3-6 In@7-9 Case@10-14 Of@15-17 Inl@18-21 Inr@22-25 If@26-28 Then@29-33 Else@34-38 "),
    (b"fst snd true false num text unit bool bag inf", "Fst@0-3 Snd@4-7 True@8-12 False@13-18 Num@19-22 Text@23-27 Unit@28-32 Bool@33-37 Bag@38-41 Inf@42-45 "),
    (b"size sum clip least greatest map filter split union",
        "Size@0-4 Sum@5-8 Clip@9-13 Least@14-19 Greatest@20-28 Map@29-32 Filter@33-39 Split@40-45 Union@46-51 "),
    (b"Fun Size", "name Fun@0-3 name Size@4-8 "),
    (b"a;", "bad 1"),
];

#[test]
fn programs(rt: HostRuntime) -> Result<(), Fail> {
    for (program, wanted) in &PROGRAMS {
        let found = outcome(rt.alloc(), program)?;
        assert!(rt; found.as_str() == *wanted, "{found}");
    }
    Ok(())
}

// A byte, how often it stands, and what comes of it.
#[rattlefmt::skip]
const REPEATED: [(u8, usize, &str); 9] = [
    (b'(', 4097, "too many 4096"),
    (b'(', 16000, "too many 4096"),
    (b'\0', 16000, "bad 0"),
    (b' ', 16000, ""),
    (b' ', 16001, "bad 16000"),
    (b'\0', 16001, "bad 16000"),
    (b'$', 16000, "bad 0"),
    (b'a', 33, "bad 0"),
    (b'0', 16000, "0@0-16000 "),
];

#[test]
fn limits(rt: HostRuntime) -> Result<(), Fail> {
    for (byte, count, wanted) in &REPEATED {
        let program = vec![in rt.alloc(); *byte; *count]?;
        let found = outcome(rt.alloc(), &program)?;
        assert!(rt; found.as_str() == *wanted, "{found}");
    }
    let behind_a_space = joined(rt.alloc(), &[("(", 4096), (" (", 1)])?;
    assert!(rt; outcome(rt.alloc(), &behind_a_space)?.as_str() == "too many 4097");
    Ok(())
}

// What stands at both ends, a byte between, how often it does, and whether they are tokens.
const LONGEST: [(&[u8], u8, usize, bool); 4] = [
    (b"", b'(', 4096, true),
    (b"", b'a', 32, true),
    (b"\"", b'x', 64, true),
    (b"\"", b'x', 65, false),
];

fn repeated(alloc: Global, end: &[u8], byte: u8, count: usize) -> Result<Vec<u8>, AllocError> {
    let mut program = Vec::from_slice(alloc, end)?;
    program.extend_from_slice(&vec![in alloc; byte; count]?)?;
    program.extend_from_slice(end)?;
    Ok(program)
}

#[test]
fn longest_tokens(rt: HostRuntime) -> Result<(), Fail> {
    for (end, byte, count, are_tokens) in &LONGEST {
        let program = repeated(rt.alloc(), end, *byte, *count)?;
        assert!(rt; lex(rt.alloc(), &program).is_ok() == *are_tokens);
    }
    Ok(())
}

// A plain reader by the grammar's words: each length is tried.

static SIGNS: [&[u8]; 21] = [
    b"(", b")", b"<", b">", b"[", b"]", b",", b":", b"=", b"!", b"|", b"+", b"-", b"*", b"&", b"/",
    b"=>", b"->", b"-o", b"<=", b"==",
];

fn is_name_byte(b: u8) -> bool {
    b.is_ascii_alphanumeric() || b == b'_'
}

fn begins_with_name_byte(bytes: &[u8]) -> bool {
    match bytes.first() {
        Some(b) => is_name_byte(*b),
        None => false,
    }
}

fn is_name(text: &[u8], after: &[u8]) -> bool {
    let starts = match text.first() {
        Some(b) => b.is_ascii_alphabetic() || *b == b'_',
        None => false,
    };
    starts
        && text.len() <= 32
        && text.iter().all(|b| is_name_byte(*b))
        && !begins_with_name_byte(after)
}

// Small numbers alone.
fn is_number(text: &[u8], after: &[u8]) -> bool {
    let ends = match after.first() {
        Some(b) => !b.is_ascii_digit(),
        None => true,
    };
    !text.is_empty() && text.len() <= 15 && text.iter().all(|b| b.is_ascii_digit()) && ends
}

fn is_text(text: &[u8]) -> bool {
    if text.len() < 2 || text.len() > 66 {
        return false;
    }
    let inner = &text[1..text.len() - 1];
    let outside = text[0] == b'"' && text[text.len() - 1] == b'"';
    outside && inner.iter().all(|b| *b != b'"' && *b >= 0x20 && *b != 0x7f)
}

fn is_sign(text: &[u8], after: &[u8]) -> bool {
    SIGNS.iter().any(|sign| *sign == text)
        && (text != b"-o".as_slice() || !begins_with_name_byte(after))
}

// A longer sign begins with the text.
fn hides_longer(text: &[u8], after: &[u8]) -> bool {
    if text.len() != 1 || after.is_empty() {
        return false;
    }
    let longer = [text[0], after[0]];
    is_sign(&longer, &after[1..])
}

fn is_token(text: &[u8], after: &[u8]) -> bool {
    let sign = is_sign(text, after) && !hides_longer(text, after);
    is_name(text, after) || is_number(text, after) || is_text(text) || sign
}

// How long the token at the front is; 0 where there is none, 99 where there are two.
fn front_len(rest: &[u8]) -> usize {
    let mut found = 0;
    for n in 1..rest.len() + 1 {
        let (text, after) = rest.split_at(n);
        if is_token(text, after) {
            found = if found == 0 { n } else { 99 };
        }
    }
    found
}

// Whether the lexer's spans are those that the plain reader finds, and its fault is where that finds no token.
fn agrees(alloc: Global, bytes: &[u8]) -> bool {
    let lexed = lex(alloc, bytes);
    let mut place = 0usize;
    let mut count = 0usize;
    for _turn in 0..bytes.len() {
        if place >= bytes.len() {
            break;
        }
        let rest = &bytes[place..];
        let len = if rest[0] == b' ' { 1 } else { front_len(rest) };
        if len == 0 || len > rest.len() {
            return is_bad_at(&lexed, place);
        }
        if rest[0] != b' ' {
            if !has_span(&lexed, count, place, place + len) {
                return false;
            }
            count = count.saturating_add(1);
        }
        place += len;
    }
    match lexed {
        Ok(tokens) => tokens.len() == count,
        Err(_fault) => false,
    }
}

fn is_bad_at(lexed: &Result<Vec<Token>, LexFault>, at: usize) -> bool {
    match lexed {
        Err(LexFault::Bad { place }) => *place as usize == at,
        _ => false,
    }
}

fn has_span(lexed: &Result<Vec<Token>, LexFault>, i: usize, from: usize, to: usize) -> bool {
    match lexed {
        // Where it is refused later, the tokens before aren't seen.
        Err(LexFault::Bad { place }) => to <= *place as usize,
        Err(_fault) => false,
        Ok(tokens) => {
            if i >= tokens.len() {
                return false;
            }
            let span = tokens[i].span;
            span.from as usize == from && span.to as usize == to
        }
    }
}

const ALPHABETS: [&[u8; 5]; 2] = [b"-o>\"1", b"=<> _"];

// The text of this number among all texts of this length.
fn text_of(alloc: Global, alphabet: &[u8; 5], length: usize, number: u32) -> Option<Vec<u8>> {
    let mut text = Vec::new(alloc);
    let mut digits = number;
    for _turn in 0..length {
        text.push(alphabet[(digits % 5) as usize]).ok()?;
        digits /= 5;
    }
    Some(text)
}

// Whether the readers agree on all texts of this length.
fn all_agree(alloc: Global, alphabet: &[u8; 5], length: usize, count: u32) -> bool {
    for number in 0..count {
        match text_of(alloc, alphabet, length, number) {
            Some(text) if agrees(alloc, &text) => {}
            _ => return false,
        }
    }
    true
}

// Whether they do on all texts of up to six bytes.
fn agree_on(alloc: Global, alphabet: &[u8; 5]) -> bool {
    let mut count = 1;
    for length in 0..7usize {
        if !all_agree(alloc, alphabet, length, count) {
            return false;
        }
        count = count.saturating_mul(5);
    }
    true
}

#[test]
fn every_text_of_six_bytes(rt: HostRuntime) {
    for alphabet in &ALPHABETS {
        assert!(rt; agree_on(rt.alloc(), alphabet));
    }
}

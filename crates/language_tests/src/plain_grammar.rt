//! A plain reader by the grammar as it is written: which parts of the tokens each phrase stands for, found by trying all
//! rules until nothing is added. Capital letters are phrases, other bytes are tokens.
ghost use Rattle.std.specs.Prelude.{◌<◌};

use fz_lexer::lex;
use fz_parser::{ParseFault, parse};
use std::alloc::{AllocError, Global};

// The token of each byte.
#[rattlefmt::skip]
static TOKENS: [(u8, &str); 39] = [
    (b'x', "x"), (b'1', "1"), (b'q', "\"\""), (b'(', "("), (b')', ")"), (b'<', "<"),
    (b'>', ">"), (b'[', "["), (b']', "]"), (b',', ","), (b':', ":"), (b'=', "="), (b'!', "!"),
    (b'|', "|"), (b'+', "+"), (b'-', "-"), (b'*', "*"), (b'&', "&"), (b'/', "/"), (b'g', "=>"),
    (b'r', "->"), (b'o', "-o"), (b'l', "<="), (b'e', "=="), (b'f', "fun"), (b't', "let"),
    (b'i', "in"), (b'c', "case"), (b'v', "of"), (b'a', "inl"), (b'b', "inr"), (b'd', "if"),
    (b'h', "then"), (b'j', "else"), (b's', "size"), (b'm', "sum"), (b'u', "union"),
    (b'n', "num"), (b'k', "bag"),
];

// T term, C cmp, A add, M mul, P app, X atoms, O op1, Z atom, N int, S sens, Y type, U plus, R prod, W pre.
#[rattlefmt::skip]
static RULES: [(u8, &[u8]); 51] = [
    (b'T', b"f(x:Y)gT"), (b'T', b"t!x=TiT"), (b'T', b"t(x,x)=TiT"), (b'T', b"tx=TiT"),
    (b'T', b"cTvaxgT|bxgT"), (b'T', b"dThTjT"), (b'T', b"C"),
    (b'C', b"A"), (b'C', b"AlA"), (b'C', b"AeA"),
    (b'A', b"M"), (b'A', b"A+M"), (b'A', b"A-M"),
    (b'M', b"-1"), (b'M', b"-1*M"), (b'M', b"1*M"), (b'M', b"P"),
    (b'P', b"OZ"), (b'P', b"uZZ"), (b'P', b"X"),
    (b'X', b"Z"), (b'X', b"XZ"),
    (b'O', b"s"), (b'O', b"m[N,N]"), (b'O', b"a[Y]"), (b'O', b"b[Y]"), (b'O', b"![S]"),
    (b'Z', b"x"), (b'Z', b"1"), (b'Z', b"q"), (b'Z', b"()"), (b'Z', b"(T)"), (b'Z', b"(T,T)"),
    (b'Z', b"<T,T>"),
    (b'N', b"1"), (b'N', b"-1"),
    (b'S', b"1"), (b'S', b"1/1"),
    (b'Y', b"U"), (b'Y', b"UoY"), (b'Y', b"UrY"),
    (b'U', b"R"), (b'U', b"R+U"),
    (b'R', b"W"), (b'R', b"W*R"), (b'R', b"W&R"),
    (b'W', b"![S]W"), (b'W', b"kW"), (b'W', b"n"), (b'W', b"(Y)"), (b'W', b"(Y)"),
];

// For each phrase and each place: the places where what it stands for may end, as bits.
#[derive(Drop)]
struct Chart {
    ends: [u8; 256],
    // The phrase may begin there and go on past the last token.
    open: [bool; 256],
}

fn cell(phrase: u8, place: usize) -> usize
    ensures { result < 256 }
{
    (phrase % 32) as usize * 8 + place % 8
}

// The places that an item leads to from the places `from`, and whether it leads past the end.
fn step(chart: &Chart, tokens: &[u8], item: u8, from: u8) -> (u8, bool) {
    let mut to = 0u8;
    let mut open = false;
    for place in 0..7usize {
        if place <= tokens.len() && (from >> place as u32) & 1 == 1 {
            if item.is_ascii_uppercase() {
                to |= chart.ends[cell(item, place)];
                open = open || place == tokens.len() || chart.open[cell(item, place)];
            } else if place == tokens.len() {
                open = true;
            } else if tokens[place] == item {
                to |= 2u8 << place as u32;
            }
        }
    }
    (to, open)
}

// The places where what a body stands for from there may end, as bits, and whether it goes on past the last token.
fn reach(chart: &Chart, tokens: &[u8], body: &[u8], place: usize) -> (u8, bool)
    requires { place < 7 }
{
    let mut from = 1u8 << place as u32;
    let mut open = false;
    for item in body {
        let (to, past) = step(chart, tokens, *item, from);
        from = to;
        open = open || past;
    }
    (from, open)
}

// One round over all rules; whether it added something.
fn round(chart: &mut Chart, tokens: &[u8]) -> bool {
    let mut added = false;
    for (head, body) in &RULES {
        for place in 0..7usize {
            if place <= tokens.len() {
                let (ends, open) = reach(chart, tokens, body, place);
                let at = cell(*head, place);
                added = added || chart.ends[at] | ends != chart.ends[at] || open && !chart.open[at];
                chart.ends[at] |= ends;
                chart.open[at] = chart.open[at] || open;
            }
        }
    }
    added
}

// Whether the tokens are a term, and whether one begins with them.
fn read(tokens: &[u8]) -> (bool, bool) {
    let mut chart = Chart {
        ends: [0; 256],
        open: [false; 256],
    };
    for _turn in 0..40 {
        if !round(&mut chart, tokens) {
            break;
        }
    }
    let at = cell(b'T', 0);
    let whole = tokens.len() < 7 && (chart.ends[at] >> tokens.len() as u32) & 1 == 1;
    (whole, whole || chart.open[at])
}

// With how many of the tokens a term begins, or 99 where they are one.
fn plain(tokens: &[u8]) -> usize {
    for count in 0..tokens.len() {
        let (_whole, begins) = read(&tokens[..count + 1]);
        if !begins {
            return count;
        }
    }
    let (whole, _begins) = read(tokens);
    if whole { 99 } else { tokens.len() }
}

fn spelled(alloc: Global, tokens: &[u8]) -> Result<Vec<u8>, AllocError> {
    let mut program = Vec::new(alloc);
    for token in tokens {
        for (byte, text) in &TOKENS {
            if byte == token {
                program.extend_from_slice(text.as_bytes())?;
                program.push(b' ')?;
            }
        }
    }
    Ok(program)
}

fn parsed(alloc: Global, tokens: &[u8]) -> Result<usize, AllocError> {
    let program = spelled(alloc, tokens)?;
    let Ok(read) = lex(alloc, &program) else {
        return Ok(98);
    };
    match parse(alloc, &read) {
        Ok(_term) => Ok(99),
        Err(ParseFault::Stuck { token }) => Ok(token),
        Err(_fault) => Ok(97),
    }
}

// Tokens, and up to how many stand in a text.
const ALPHABETS: [(&[u8], usize); 7] = [
    (b"x1)(", 6),
    (b"x1+*", 6),
    (b"x<,>", 6),
    (b"-1le", 6),
    (b"x+*-()<,", 4),
    (b"1[]!/asm", 4),
    (b"tx=i1!l(", 4),
];

// The text of this number among all texts of this length.
fn text_of(alloc: Global, alphabet: &[u8], length: usize, number: usize) -> Option<Vec<u8>> {
    let mut tokens = Vec::new(alloc);
    let mut digits = number;
    for _turn in 0..length {
        let digit = digits.checked_rem(alphabet.len())?;
        tokens.push(*alphabet.get(digit)?).ok()?;
        digits = digits.checked_div(alphabet.len())?;
    }
    Some(tokens)
}

fn agrees(alloc: Global, tokens: &[u8]) -> bool {
    match parsed(alloc, tokens) {
        Ok(found) => found == plain(tokens),
        Err(_) => false,
    }
}

// Whether the readers agree on all texts of this length.
fn all_agree(alloc: Global, alphabet: &[u8], length: usize, count: usize) -> bool {
    for number in 0..count {
        match text_of(alloc, alphabet, length, number) {
            Some(tokens) if agrees(alloc, &tokens) => {}
            _ => return false,
        }
    }
    true
}

// Whether they do on all texts of up to this length.
fn agree_on(alloc: Global, alphabet: &[u8], longest: usize) -> bool {
    let mut count = 1;
    for length in 0..longest.saturating_add(1) {
        if !all_agree(alloc, alphabet, length, count) {
            return false;
        }
        count = alphabet.len().saturating_mul(count);
    }
    true
}

#[test]
fn every_text_of_six_tokens(rt: HostRuntime) {
    for (alphabet, longest) in &ALPHABETS {
        assert!(rt; agree_on(rt.alloc(), alphabet, *longest));
    }
}

//! Readings by hand, and a plain reader compared with the parser.
use crate::programs::{Piece, joined, letters};
use fz_ast::{Form, Name, Node, Span, Term, TypeForm, Types};
use fz_frac::Sens;
use fz_lexer::lex;
use fz_parser::{ParseFault, parse};
use std::alloc::{AllocError, Global};
use std::test::Fail;

// Each production, with its tree: a form, its span and its parts. Then where tokens are stuck, and the greatest bang number.
#[rattlefmt::skip]
static READINGS: [(&str, &str); 70] = [
    ("x", "x[0-1]"), ("\"ab\"", "\"ab\"[0-4]"), ("()", "()[0-2]"), ("1", "1[0-1]"),
    ("-3", "-3[0-2]"), ("(x)", "x[1-2]"), ("(x, 1)", "Pair[0-6](x[1-2], 1[4-5])"),
    ("<x, 1>", "With[0-6](x[1-2], 1[4-5])"), ("true", "Inl[0-4](unit[0-4], ()[0-4])"),
    ("false", "Inr[0-5](unit[0-5], ()[0-5])"),
    ("f x y", "App[0-5](App[0-3](f[0-1], x[2-3]), y[4-5])"),
    ("f (g x)", "App[0-7](f[0-1], App[3-6](g[3-4], x[5-6]))"), ("fst p", "Fst[0-5](p[4-5])"),
    ("snd (p)", "Snd[0-7](p[5-6])"), ("size people", "Size[0-11](people[5-11])"),
    ("least <1, 2>", "Least[0-12](With[6-12](1[7-8], 2[10-11]))"),
    ("greatest <1, 2>", "Greatest[0-15](With[9-15](1[10-11], 2[13-14]))"),
    ("sum[-1,2] b", "Sum[0-11](-1, 2, b[10-11])"), ("clip[0,-0] x", "Clip[0-12](0, 0, x[11-12])"),
    ("inl[num] x", "Inl[0-10](num[4-7], x[9-10])"),
    ("inr[(num)] ()", "Inr[0-13](num[5-8], ()[11-13])"), ("![2/4] x", "Bang[0-8](1/2, x[7-8])"),
    ("![inf] x", "Bang[0-8](inf, x[7-8])"), ("![3] (x)", "Bang[0-8](3/1, x[6-7])"),
    ("map f b", "Map[0-7](f[4-5], b[6-7])"), ("filter f b", "Filter[0-10](f[7-8], b[9-10])"),
    ("split f b", "Split[0-9](f[6-7], b[8-9])"), ("union a b", "Union[0-9](a[6-7], b[8-9])"),
    ("2 * x", "Times[0-5](2, x[4-5])"), ("-2 * 3 * x", "Times[0-10](-2, Times[5-10](3, x[9-10]))"),
    ("2 * f x", "Times[0-7](2, App[4-7](f[4-5], x[6-7]))"), ("1 x", "App[0-3](1[0-1], x[2-3])"),
    ("1 + 2 - 3", "Minus[0-9](Plus[0-5](1[0-1], 2[4-5]), 3[8-9])"),
    ("(1) + (2)", "Plus[0-9](1[1-2], 2[7-8])"),
    ("a <= b + 1", "AtMost[0-10](a[0-1], Plus[5-10](b[5-6], 1[9-10]))"),
    ("a == \"b\"", "Equal[0-8](a[0-1], \"b\"[5-8])"),
    ("if a then b else c", "If[0-18](a[3-4], b[10-11], c[17-18])"),
    ("case s of inl x => a | inr y => b", "Case[0-33](s[5-6], x, a[19-20], y, b[32-33])"),
    ("let x = 1 in x", "Let[0-14](x, 1[8-9], x[13-14])"),
    ("let !y = ![2] x in y", "LetBang[0-20](y, Bang[9-15](2/1, x[14-15]), y[19-20])"),
    ("let (a, b) = p in a", "LetPair[0-19](a, b, p[13-14], a[18-19])"),
    ("fun (x : num) => x", "Fun[0-18](x, num[9-12], x[17-18])"),
    ("fn (x : bool) => x", "Fn[0-18](x, (unit + unit)[8-12], x[17-18])"),
    ("fun (x : num -o text -o unit) => x", "Fun[0-34](x, (num -o (text -o unit))[9-28], x[33-34])"),
    ("fun (x : num -> (text -> unit)) => x", "Fun[0-36](x, (![inf] num -o (![inf] text -o unit))[9-30], x[35-36])"),
    ("fun (x : num * text & unit + num + unit) => x", "Fun[0-45](x, ((num * (text & unit)) + (num + unit))[9-39], x[44-45])"),
    ("fun (x : bag ![2/3] num) => (x)", "Fun[0-31](x, bag ![2/3] num[9-23], x[29-30])"),
    ("fun (x : (num + unit) * (bool)) => x", "Fun[0-36](x, ((num + unit) * (unit + unit))[9-30], x[35-36])"),
    ("let f = fun (x : ![1] num) => let !y = x in y + y in f (![1] 1)",
        "Let[0-63](f, Fun[8-49](x, ![1/1] num[17-25], LetBang[30-49](y, x[39-40], \
        Plus[44-49](y[44-45], y[48-49]))), App[53-63](f[53-54], Bang[56-62](1/1, 1[61-62])))"),
    ("fun(x:num)=>x+1", "Fun[0-15](x, num[6-9], Plus[12-15](x[12-13], 1[14-15]))"),
    ("", "stuck 0"), ("size", "stuck 1"), ("size people people", "stuck 2"),
    ("(fn (x : num) => x", "stuck 9"), ("1 -o 2", "stuck 1"), ("x y z )", "stuck 3"),
    ("![0] x", "stuck 2"), ("![4294967296] x", "stuck 2"), ("![1/0] x", "stuck 4"),
    ("![1/4294967295] x", "Bang[0-17](1/4294967295, x[16-17])"), ("! x", "stuck 1"),
    ("fun (x) => x", "stuck 3"), ("1 * * 2", "stuck 2"), ("a <= b <= c", "stuck 3"),
    ("-x", "stuck 1"), ("(1,2,3)", "stuck 4"), ("case s of inl x => a", "stuck 7"),
    ("let let = 1 in 2", "stuck 1"), ("do", "stuck 0"), ("1 at", "stuck 1"),
];

pub(crate) fn factor(alloc: Global, factor: Sens) -> Result<String, AllocError> {
    match factor {
        Sens::Finite(f) => {
            let (p, q) = (f.p, f.q);
            format!(in alloc; "{p}/{q}")
        }
        Sens::Inf => format!(in alloc; "inf"),
    }
}

pub(crate) fn at(texts: &[String], i: u32) -> &str {
    if (i as usize) < texts.len() {
        texts[i as usize].as_str()
    } else {
        "?"
    }
}

fn type_text(alloc: Global, form: TypeForm, texts: &[String]) -> Result<String, AllocError> {
    let (sign, a, b) = match form {
        TypeForm::Num => return String::from_str(alloc, "num"),
        TypeForm::Text => return String::from_str(alloc, "text"),
        TypeForm::Unit => return String::from_str(alloc, "unit"),
        TypeForm::Bag(a) => return format!(in alloc; "bag {}", at(texts, a)),
        TypeForm::Bang(r, a) => {
            return format!(in alloc; "![{}] {}", factor(alloc, r)?, at(texts, a));
        }
        TypeForm::Tensor(a, b) => ("*", a, b),
        TypeForm::With(a, b) => ("&", a, b),
        TypeForm::Sum(a, b) => ("+", a, b),
        TypeForm::Arrow(a, b) => ("-o", a, b),
    };
    format!(in alloc; "({} {sign} {})", at(texts, a), at(texts, b))
}

pub(crate) fn type_texts(alloc: Global, types: &Types) -> Result<Vec<String>, AllocError> {
    let mut texts = Vec::new(alloc);
    for i in 0..types.len().min(99999) as u32 {
        let text = type_text(alloc, types.form(i), &texts)?;
        texts.push(text)?;
    }
    Ok(texts)
}

// What the nodes so far are shown as.
#[derive(Drop)]
struct Shown {
    types: Vec<String>,
    terms: Vec<String>,
}

// A part of a form.
#[derive(Clone, Copy)]
enum Part {
    Name(Name),
    Whole(i64),
    Factor(Sens),
    Type(Span, u32),
    Term(u32),
    Nothing,
}

fn head(alloc: Global, form: Form) -> Result<String, AllocError> {
    let word = match form {
        Form::Var(x) => return letters(alloc, x.as_bytes()),
        Form::Num(z) => return format!(in alloc; "{z}"),
        Form::Text(text) => return format!(in alloc; "\"{}\"", letters(alloc, text.as_bytes())?),
        Form::Unary(op, _) => return format!(in alloc; "{op:?}"),
        Form::Binary(op, _, _) => return format!(in alloc; "{op:?}"),
        Form::Ranged(op, _, _, _) => return format!(in alloc; "{op:?}"),
        Form::Inject(side, _, _, _) => return format!(in alloc; "{side:?}"),
        Form::Lambda(arrow, _, _, _, _) => return format!(in alloc; "{arrow:?}"),
        Form::Unit => "()",
        Form::Times(_, _) => "Times",
        Form::Bang(_, _) => "Bang",
        Form::If(_, _, _) => "If",
        Form::Let(_, _, _) => "Let",
        Form::LetBang(_, _, _) => "LetBang",
        Form::LetPair(_, _, _, _) => "LetPair",
        Form::Case(_, _, _, _, _) => "Case",
    };
    String::from_str(alloc, word)
}

// The parts of a form, and nothing behind them.
fn parts(form: Form) -> [Part; 5] {
    use Part::{Factor, Name, Nothing, Term, Type, Whole};
    match form {
        Form::Unary(_, e) => [Term(e), Nothing, Nothing, Nothing, Nothing],
        Form::Binary(_, a, b) => [Term(a), Term(b), Nothing, Nothing, Nothing],
        Form::Times(k, e) => [Whole(k), Term(e), Nothing, Nothing, Nothing],
        Form::Ranged(_, low, high, e) => [Whole(low), Whole(high), Term(e), Nothing, Nothing],
        Form::Inject(_, span, ty, e) => [Type(span, ty), Term(e), Nothing, Nothing, Nothing],
        Form::Bang(r, e) => [Factor(r), Term(e), Nothing, Nothing, Nothing],
        Form::If(e, a, b) => [Term(e), Term(a), Term(b), Nothing, Nothing],
        Form::Let(x, e, b) => [Name(x), Term(e), Term(b), Nothing, Nothing],
        Form::LetBang(x, e, b) => [Name(x), Term(e), Term(b), Nothing, Nothing],
        Form::LetPair(x, y, e, b) => [Name(x), Name(y), Term(e), Term(b), Nothing],
        Form::Case(e, x, a, y, b) => [Term(e), Name(x), Term(a), Name(y), Term(b)],
        Form::Lambda(_, x, span, ty, e) => [Name(x), Type(span, ty), Term(e), Nothing, Nothing],
        _ => [Nothing; 5],
    }
}

fn place(alloc: Global, span: Span) -> Result<String, AllocError> {
    let (from, to) = (span.from, span.to);
    format!(in alloc; "[{from}-{to}]")
}

fn part_text(alloc: Global, part: Part, shown: &Shown) -> Result<String, AllocError> {
    match part {
        Part::Name(x) => letters(alloc, x.as_bytes()),
        Part::Whole(z) => format!(in alloc; "{z}"),
        Part::Factor(r) => factor(alloc, r),
        Part::Type(span, i) => format!(in alloc; "{}{}", at(&shown.types, i), place(alloc, span)?),
        Part::Term(i) => String::from_str(alloc, at(&shown.terms, i)),
        Part::Nothing => Ok(String::new(alloc)),
    }
}

fn term_text(alloc: Global, node: &Node, shown: &Shown) -> Result<String, AllocError> {
    let mut text = head(alloc, node.form)?;
    text.push_str(&place(alloc, node.span)?)?;
    let mut before = "(";
    for part in parts(node.form) {
        if !matches!(part, Part::Nothing) {
            text.push_str(before)?;
            text.push_str(&part_text(alloc, part, shown)?)?;
            before = ", ";
        }
    }
    if before == ", " {
        text.push(')')?;
    }
    Ok(text)
}

fn show(alloc: Global, term: &Term) -> Result<String, AllocError> {
    let (nodes, root) = term.parts();
    let mut shown = Shown {
        types: type_texts(alloc, nodes.types())?,
        terms: Vec::new(alloc),
    };
    for i in 0..nodes.len().min(99999) as u32 {
        let text = term_text(alloc, nodes.node(i), &shown)?;
        shown.terms.push(text)?;
    }
    String::from_str(alloc, at(&shown.terms, root))
}

fn outcome(alloc: Global, program: &[u8]) -> Result<String, AllocError> {
    let Ok(tokens) = lex(alloc, program) else {
        return format!(in alloc; "no tokens");
    };
    match parse(alloc, &tokens) {
        Ok(term) => show(alloc, &term),
        Err(ParseFault::Stuck { token }) => format!(in alloc; "stuck {token}"),
        Err(ParseFault::TooNested { depth }) => format!(in alloc; "too nested {depth}"),
        Err(ParseFault::NoMemory) => format!(in alloc; "no memory"),
    }
}

#[test]
fn productions(rt: HostRuntime) -> Result<(), Fail> {
    for (program, wanted) in &READINGS {
        let found = outcome(rt.alloc(), program.as_bytes())?;
        assert!(rt; found.as_str() == *wanted, "{found}");
    }
    Ok(())
}

// A tree is wanted by how it begins, and another outcome whole.
#[rattlefmt::skip]
static DEEP_PROGRAMS: [(&[Piece], &str); 11] = [
    (&[("(", 4096)], "stuck 4096"),
    (&[("(", 2047), ("1", 1), (")", 2047)], "1[2047-2048]"),
    (&[("(", 2048), (")", 2048)], "()[2047-2049]"),
    (&[("1+", 64), ("1", 1)], "too nested 65"),
    (&[("1+", 65), ("1", 1)], "too nested 66"),
    (&[("1+", 99), ("1", 1)], "too nested 100"),
    (&[("fst ", 64), ("x", 1)], "stuck 1"),
    (&[("(fst ", 63), ("x", 1), (")", 63)], "Fst[1-378]("),
    (&[("(fst ", 64), ("x", 1), (")", 64)], "too nested 65"),
    (&[("inl[bag num] (", 62), ("x", 1), (")", 62)], "Inl[0-931]("),
    (&[("inl[bool](", 63), ("x", 1), (")", 63)], "too nested 65"),
];

fn is_wanted(found: &str, wanted: &str) -> bool {
    found == wanted || wanted.ends_with("(") && found.starts_with(wanted)
}

#[test]
fn deep_programs(rt: HostRuntime) -> Result<(), Fail> {
    for (pieces, wanted) in &DEEP_PROGRAMS {
        let found = outcome(rt.alloc(), &joined(rt.alloc(), pieces)?)?;
        assert!(rt; is_wanted(found.as_str(), wanted), "at {found}");
    }
    Ok(())
}

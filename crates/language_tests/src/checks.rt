//! Worked programs with their verdicts, and types that double.

use crate::programs::{Piece, joined, people, term_of};
use fz_ast::Sig;
use fz_frac::Sens;
use sensitivity_check::{CheckFault, Checked, check};
use std::alloc::Global;
use std::test::Fail;

/// What a program is: its sensitivity, or its first fault with its span and its sensitivity.
#[derive(Clone, Copy, PartialEq, Eq)]
enum Verdict {
    Sensitive(u32),
    Unbounded(usize),
    Range(u32, u32),
    TooSensitive(u32, u32, u32),
    NotNum,
    Unbound(u32, u32),
    Another,
}

// A sensitivity that is whole.
fn whole(r: Sens) -> u32 {
    match r {
        Sens::Finite(f) if f.q == 1 => f.p,
        _ => u32::MAX,
    }
}

fn verdict_on(answer: &Result<Checked<'_>, CheckFault>) -> Verdict {
    match answer {
        Ok(checked) => Verdict::Sensitive(whole(checked.sens)),
        Err(CheckFault::Unbounded { table }) => Verdict::Unbounded(*table),
        Err(CheckFault::Range { span }) => Verdict::Range(span.from, span.to),
        Err(CheckFault::TooSensitive { span, r, .. }) => {
            Verdict::TooSensitive(span.from, span.to, whole(*r))
        }
        Err(CheckFault::NotNum { .. }) => Verdict::NotNum,
        Err(CheckFault::Unbound { span }) => Verdict::Unbound(span.from, span.to),
        Err(_) => Verdict::Another,
    }
}

fn verdict_of(alloc: Global, sig: &Sig, program: &[u8]) -> Verdict {
    match term_of(alloc, program) {
        Some(term) => verdict_on(&check(alloc, sig, &term)),
        None => Verdict::Another,
    }
}

// In the last of them the innermost type has 2^58 leaves as a tree.
#[rattlefmt::skip]
static VERDICTS: [(&[Piece], Verdict); 12] = [
    (&[("people", 1)], Verdict::NotNum),
    (&[("size people", 1)], Verdict::Sensitive(1)),
    (&[("size people + size people", 1)], Verdict::Sensitive(2)),
    (&[("2 * size people", 1)], Verdict::Sensitive(2)),
    (&[("1125899906842624 * size people", 1)], Verdict::Range(0, 30)),
    (&[("sum[0,100] people", 1)], Verdict::Sensitive(100)),
    (&[("let !y = ![2] (size people) in y", 1)], Verdict::Sensitive(1)),
    (&[("if size people <= 3 then 0 else 100", 1)], Verdict::Unbounded(0)),
    (&[("case inl[unit] (size people) of inl x => 5 | inr y => 7", 1)], Verdict::Sensitive(1)),
    (&[("(fun (x : num) => x + x) (size people)", 1)], Verdict::TooSensitive(1, 23, 2)),
    (&[("let (a, b) = split (fn (x : num) => x <= 30) people in size a + size b", 1)], Verdict::Sensitive(1)),
    (&[("let b = () in ", 1), ("let b = (b, b) in ", 58), ("0", 1)], Verdict::Sensitive(0)),
];

#[test]
fn worked_verdicts(rt: HostRuntime) -> Result<(), Fail> {
    let alloc = rt.alloc();
    let sig = people(alloc)?;
    for (pieces, want) in &VERDICTS {
        let program = joined(alloc, pieces)?;
        assert!(rt; verdict_of(alloc, &sig, &program) == *want, "{pieces:?}");
    }
    Ok(())
}

// Of several names that are bound nowhere the one that stands first is told.
#[rattlefmt::skip]
static UNBOUND: [(&[u8], Verdict); 12] = [
    (b"y z", Verdict::Unbound(0, 1)),
    (b"(y, z)", Verdict::Unbound(1, 2)),
    (b"<y, z>", Verdict::Unbound(1, 2)),
    (b"y + z", Verdict::Unbound(0, 1)),
    (b"y - z", Verdict::Unbound(0, 1)),
    (b"y <= z", Verdict::Unbound(0, 1)),
    (b"y == z", Verdict::Unbound(0, 1)),
    (b"union y z", Verdict::Unbound(6, 7)),
    (b"map y z", Verdict::Unbound(4, 5)),
    (b"filter y z", Verdict::Unbound(7, 8)),
    (b"split y z", Verdict::Unbound(6, 7)),
    (b"if y then z else x", Verdict::Unbound(3, 4)),
];

#[test]
fn first_unbound(rt: HostRuntime) -> Result<(), Fail> {
    let sig = people(rt.alloc())?;
    for (program, want) in &UNBOUND {
        assert!(rt;
            verdict_of(rt.alloc(), &sig, program) == *want,
            "{program:?}"
        );
    }
    Ok(())
}

#[test]
fn by_name(rt: HostRuntime) -> Result<(), Fail> {
    let sig = people(rt.alloc())?;
    let Some(term) = term_of(rt.alloc(), b"size people") else {
        panic!(rt; "no term");
    };
    let Ok(checked) = check(rt.alloc(), &sig, &term) else {
        panic!(rt; "a fault");
    };
    assert!(rt; checked.sig.len() == 1);
    assert!(rt; checked.env.amount(b"people") == Sens::whole(1));
    assert!(rt; checked.env.amount(b"b") == Sens::whole(0));
    Ok(())
}

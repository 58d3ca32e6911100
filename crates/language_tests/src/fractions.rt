//! Fractions worked by hand.
use fz_frac::{Frac, Range, Sens};

const MAX: u64 = 4294967295;

// A fraction, 1/0 being infinity.
type Part = (u64, u64);

fn part((p, q): Part) -> Sens {
    if q == 0 {
        return Sens::Inf;
    }
    match Frac::new(p, q) {
        Ok(f) => Sens::Finite(f),
        Err(Range) => Sens::Inf,
    }
}

fn over(a: Sens, b: Sens) -> Result<Sens, Range> {
    match b {
        Sens::Finite(f) if f.p > 0 => a.div(b),
        _ => Err(Range),
    }
}

// Two fractions, and their sum, product and quotient.
const ROWS: [[Part; 5]; 4] = [
    [(1, 2), (1, 3), (5, 6), (1, 6), (3, 2)],
    [(6, 4), (10, 15), (13, 6), (1, 1), (9, 4)],
    [(0, 7), (MAX, 1), (MAX, 1), (0, 1), (0, 1)],
    [(1, MAX), (MAX, 2), (1, 0), (1, 2), (1, 0)],
];

// Whether an answer is this fraction, infinity standing for none.
fn is(answer: Result<Sens, Range>, wanted: Part) -> bool {
    answer.unwrap_or(Sens::Inf) == part(wanted)
}

fn holds([a, b, sum, product, quotient]: [Part; 5]) -> bool {
    let (x, y) = (part(a), part(b));
    is(x.add(y), sum) && is(x.mul(y), product) && is(over(x, y), quotient)
}

#[test]
fn worked_by_hand(rt: HostRuntime) {
    for row in &ROWS {
        assert!(rt; holds(*row));
    }
}

#[test]
fn lowest_terms_and_range(rt: HostRuntime) {
    assert!(rt; Frac::new(1 << 33, 1 << 33).ok() == Frac::new(1, 1).ok());
    assert!(rt; Frac::new(MAX + 1, 1).ok() == None);
}

#[test]
fn infinity_and_the_greater(rt: HostRuntime) {
    assert!(rt; Sens::whole(0).mul(Sens::Inf).ok() == Some(Sens::whole(0)));
    assert!(rt; part((2, 3)).max(part((3, 5))) == part((2, 3)));
    assert!(rt; part((3, 2)).ceil_times(1000001) == Some(1500002));
    assert!(rt; Sens::Inf.ceil_times(1) == None);
}

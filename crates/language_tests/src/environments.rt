//! Environments by name and by place.
use fz_ast::Name;
use fz_frac::{Frac, Range, Sens};
use linear_types::{Env, EnvFault, places};
use std::alloc::Global;
use std::test::Fail;

// A fraction, 1/0 being infinity.
type Part = (u64, u64);

fn part((p, q): Part) -> Sens {
    if q == 0 {
        return Sens::Inf;
    }
    match Frac::new(p, q) {
        Ok(f) => Sens::Finite(f),
        Err(Range) => Sens::Inf,
    }
}

fn one_name(alloc: Global, name: Name, r: Sens) -> Result<Env, EnvFault> {
    let mut env = Env::new(alloc);
    env.set(name, r)?;
    Ok(env)
}

// The sum, the greater and three halves of the first, by name.
fn by_name(alloc: Global, a: Sens, b: Sens) -> Result<[Sens; 3], EnvFault> {
    let name = Name::new(b"x");
    let left = one_name(alloc, name, a)?;
    let right = one_name(alloc, name, b)?;
    let sum = left.plus(&right)?.amount(b"x");
    let greater = left.join(&right)?.amount(b"x");
    let product = left.scale(part((3, 2)))?.amount(b"x");
    Ok([sum, greater, product])
}

fn second(amounts: &[Sens]) -> Sens {
    places::first_of(places::rest_of(amounts))
}

// The same in the second place, which the other list hasn't where `b` is 0.
fn by_place(alloc: Global, a: Sens, b: Sens) -> Result<[Sens; 3], EnvFault> {
    let longer = [Sens::Inf, a];
    let other = [Sens::whole(1), b];
    let end = if b.le(Sens::whole(0)) { 1 } else { 2 };
    let shorter = &other[..end];
    let sums = places::sum(alloc, &longer, shorter)?;
    let greatest = places::joined(alloc, shorter, &longer)?;
    let products = places::scaled(alloc, part((3, 2)), &longer)?;
    Ok([second(&sums), second(&greatest), second(&products)])
}

// Two fractions, their sum and the greater, and three halves of the first.
const ROWS: [[Part; 5]; 4] = [
    [(1, 2), (1, 3), (5, 6), (1, 2), (3, 4)],
    [(0, 1), (2, 3), (2, 3), (2, 3), (0, 1)],
    [(1, 0), (1, 1), (1, 0), (1, 0), (1, 0)],
    [(2, 1), (0, 1), (2, 1), (2, 1), (3, 1)],
];

fn holds(alloc: Global, [a, b, sum, greater, product]: [Part; 5]) -> Result<bool, EnvFault> {
    let (a, b) = (part(a), part(b));
    let answers = [part(sum), part(greater), part(product)];
    Ok(by_name(alloc, a, b)? == answers && by_place(alloc, a, b)? == answers)
}

#[test]
fn worked_by_hand(rt: HostRuntime) -> Result<(), Fail> {
    for row in &ROWS {
        assert!(rt; holds(rt.alloc(), *row)?);
    }
    Ok(())
}

#[test]
fn a_name_is_taken(rt: HostRuntime) -> Result<(), Fail> {
    let mut env = one_name(rt.alloc(), Name::new(b"x"), part((4294967295, 1)))?;
    assert!(rt; env.plus(&env).err() == Some(EnvFault::Range));
    assert!(rt; env.take("y") == Sens::whole(0));
    assert!(rt; env.take("x") == part((4294967295, 1)));
    assert!(rt; env.is_empty());
    Ok(())
}

//! Types that are kept once.
use fz_ast::{Arena, NoMemory, TypeForm};
use fz_frac::Sens;
use std::test::Fail;

// Interns a form, if its parts are there and its bang number is above 0.
fn put(arena: &mut Arena, form: TypeForm) -> Result<u32, NoMemory> {
    let n = arena.len();
    let known = match form {
        TypeForm::Num | TypeForm::Text | TypeForm::Unit => true,
        TypeForm::Tensor(a, b)
        | TypeForm::With(a, b)
        | TypeForm::Sum(a, b)
        | TypeForm::Arrow(a, b) => (a as usize) < n && (b as usize) < n,
        TypeForm::Bang(Sens::Finite(f), a) => f.p > 0 && (a as usize) < n,
        TypeForm::Bang(Sens::Inf, a) | TypeForm::Bag(a) => (a as usize) < n,
    };
    if known {
        arena.intern(form)
    } else {
        Err(NoMemory)
    }
}

#[test]
fn forms(rt: HostRuntime) -> Result<(), Fail> {
    let mut arena = Arena::new(rt.alloc());
    // a form, and the number that it gets
    let rows = [
        (TypeForm::Num, 0),
        (TypeForm::Text, 1),
        (TypeForm::Unit, 2),
        (TypeForm::Tensor(0, 1), 3),
        (TypeForm::With(0, 1), 4),
        (TypeForm::Sum(0, 1), 5),
        (TypeForm::Arrow(0, 1), 6),
        (TypeForm::Arrow(1, 0), 7),
        (TypeForm::Bang(Sens::whole(2), 0), 8),
        (TypeForm::Bang(Sens::whole(3), 0), 9),
        (TypeForm::Bang(Sens::Inf, 0), 10),
        (TypeForm::Bang(Sens::Inf, 1), 11),
        (TypeForm::Bag(0), 12),
        (TypeForm::Bag(12), 13),
        (TypeForm::Num, 0),
        (TypeForm::Unit, 2),
        (TypeForm::Tensor(0, 1), 3),
        (TypeForm::With(0, 1), 4),
        (TypeForm::Sum(0, 1), 5),
        (TypeForm::Arrow(0, 1), 6),
        (TypeForm::Bang(Sens::whole(3), 0), 9),
        (TypeForm::Bang(Sens::Inf, 1), 11),
        (TypeForm::Bag(12), 13),
        (TypeForm::Tensor(1, 0), 14),
    ];
    for (form, number) in &rows {
        assert!(rt; put(&mut arena, *form)? == *number);
    }
    assert!(rt; arena.len() == 15);
    Ok(())
}

// bag num, bag (bag num) and so on, and the number of the last
fn nest(arena: &mut Arena, n: u32) -> Result<u32, NoMemory> {
    let mut last = put(arena, TypeForm::Num)?;
    for _ in 0..n {
        last = put(arena, TypeForm::Bag(last))?;
    }
    Ok(last)
}

#[test]
fn many(rt: HostRuntime) -> Result<(), Fail> {
    let mut arena = Arena::new(rt.alloc());
    assert!(rt; nest(&mut arena, 100000)? == 100000);
    assert!(rt; nest(&mut arena, 1000)? == 1000);
    assert!(rt; arena.into_types().len() == 100001);
    Ok(())
}

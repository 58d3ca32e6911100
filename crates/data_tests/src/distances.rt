//! The calls at worked tables, bags and values.
ghost use Rattle.std.specs.Prelude.{◌≡◌, ◌<◌, IfOk};
ghost use Rattle.fz_ast.specs.Limits.{IsNumber};
ghost use Rattle.fz_ast.specs.Types.{BangT, NumT};
ghost use Rattle.fz_frac.specs.Distance.{Fin};

use fz_ast::{NoMemory, Ty, TypeForm, Types};
use fz_frac::Sens;
use metric_values::{Column, Table, Tables, Texts};
use run_values::Value;
use std::alloc::Global;
use std::test::Fail;
use value_distance::{Dist, DistFault, bag_distance, distance, table_apart, tables_apart};

fn numbers(alloc: Global, cells: &[i64]) -> Result<Table, NoMemory> {
    Table::numbers(alloc, Vec::from_slice(alloc, cells)?)
}

fn people(alloc: Global, ages: [i64; 2], town: &[u8]) -> Result<Table, NoMemory> {
    let mut towns = Texts::new(alloc);
    towns.push(town)?;
    towns.push(b"oslo")?;
    let mut numbers = Vec::new(alloc);
    numbers.extend_from_slice(&ages)?;
    let mut columns = Vec::new(alloc);
    if columns.push(Column::Numbers(numbers)).is_err()
        || columns.push(Column::Texts(towns)).is_err()
    {
        return Err(NoMemory);
    }
    Table::new(alloc, columns)
}

const MOST: i64 = 1 << 50;

#[rattlefmt::skip]
const WORKED: [(&[i64], &[i64], u64); 5] = [
    (&[], &[], 0),
    (&[], &[7, 7], 2),
    (&[2, 3], &[1, 2, 2], 3),
    (&[3, 1, 2], &[2, 3, 1], 0),
    (&[-MOST, MOST], &[MOST, 0], 2),
];

// How far two tables of numbers are apart, from either side.
fn numbers_apart(alloc: Global, left: &[i64], right: &[i64]) -> Option<(u64, u64)> {
    let x = numbers(alloc, left).ok()?;
    let y = numbers(alloc, right).ok()?;
    let there = table_apart(alloc, &x, &y).ok()?;
    Some((there, table_apart(alloc, &y, &x).ok()?))
}

#[test]
fn tables_of_numbers(rt: HostRuntime) {
    for (left, right, apart) in &WORKED {
        let found = numbers_apart(rt.alloc(), left, right);
        assert!(rt; found == Some((*apart, *apart)));
    }
}

#[test]
fn tables_of_people(rt: HostRuntime) -> Result<(), Fail> {
    let alloc = rt.alloc();
    let x = people(alloc, [30, 41], b"ny")?;
    let y = people(alloc, [41, 30], b"oslo")?;
    assert!(rt; table_apart(alloc, &x, &y) == Ok(2));
    Ok(())
}

#[test]
fn datasets(rt: HostRuntime) -> Result<(), Fail> {
    let alloc = rt.alloc();
    let (mut x, mut y) = (Tables::new(alloc), Tables::new(alloc));
    x.push(numbers(alloc, &[1, 2])?)?;
    y.push(numbers(alloc, &[2, 2])?)?;
    x.push(numbers(alloc, &[5])?)?;
    y.push(numbers(alloc, &[])?)?;
    assert!(rt; tables_apart(alloc, &x, &y)? == 3);
    Ok(())
}

#[test]
fn bags(rt: HostRuntime) -> Result<(), Fail> {
    let alloc = rt.alloc();
    let two = Value::bang(alloc, Value::num(2))?;
    let left = vec![in alloc; two.copy()?, Value::truth(true)]?;
    let right = vec![in alloc; Value::num(2), two.copy()?, two]?;
    assert!(rt; bag_distance(alloc, left.as_slice(), right.as_slice())? == 3);
    assert!(rt; Dist::whole(1 << 63) == None);
    Ok(())
}

#[tactic(auto, using(fz_frac::proofs::Lowest::gcd_one), unfolding(fz_ast::specs::TypeNodes::type_at))]
fn scaled_number(alloc: Global, factor: u32) -> Result<Ty, NoMemory>
    requires { 0 < factor }
    ensures { IfOk result (λ ty. ty ≡ BangT (Fin factor 1) NumT) }
{
    let mut types = Types::new(alloc);
    let number = types.push(TypeForm::Num)?;
    let root = types.push(TypeForm::Bang(Sens::whole(factor), number))?;
    Ok(Ty::new(types, root))
}

// How far a number is from 0 at a type that counts it 454279 times.
fn from_zero(alloc: Global, number: i64) -> Result<Dist, DistFault>
    requires { IsNumber number }
{
    let ty = scaled_number(alloc, 454279)?;
    let zero = Value::bang(alloc, Value::num(0))?;
    let value = Value::bang(alloc, Value::num(number))?;
    distance(alloc, &ty, &value, &zero)
}

// 454279 times 20303320287433 is 2^63 - 1.
#[test]
fn values(rt: HostRuntime) {
    let greatest = Dist::whole((1 << 63) - 1).ok_or(DistFault::Range);
    assert!(rt; from_zero(rt.alloc(), 20303320287433) == greatest);
    assert!(rt; from_zero(rt.alloc(), 20303320287434) == Err(DistFault::Range));
}

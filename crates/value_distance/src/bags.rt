//! How far two bags of values are apart.
ghost use Rattle.std.specs.Prelude.{◌≡◌, ◌+◌, ◌<◌, ◌^◌, IfOk, length, map};
ghost use Rattle.metric_values.specs.Distances.{bag_distance};
ghost use Rattle.run_values.specs.Flats.{AllFlat, flat_of, flats_of};
ghost use Rattle.run_values.specs.Looks.{look_of, part_of};
ghost use Rattle.value_distance.specs.Order.{element_cmp, form_place};

use crate::sorted::{Element, bags_apart};
use fz_ast::NoMemory;
use run_values::{Look, Part, Value};
use std::alloc::Global;
use std::cmp::Ordering;

// The place of a form among the forms.
fn place(look: &Look<'_>) -> u8
    ensures { result ≡ form_place (look_of look.now) }
{
    match look {
        Look::Num(_) => 0,
        Look::Text(_) => 1,
        Look::Unit => 2,
        Look::Inl(_) => 3,
        Look::Inr(_) => 4,
        Look::Bang(_) => 5,
        Look::Pair(_, _) => 6,
    }
}

fn compare_parts(x: Part<'_>, y: Part<'_>) -> Ordering
    ensures { result ≡ element_cmp (part_of x.entry) (part_of y.entry) }
{
    let (left, right) = (x.look(), y.look());
    match (left, right) {
        (Look::Num(y), Look::Num(z)) => y.cmp(&z),
        (Look::Text(s), Look::Text(t)) => s.cmp(t),
        (Look::Inl(a), Look::Inl(b)) => compare_parts(a, b),
        (Look::Inr(a), Look::Inr(b)) => compare_parts(a, b),
        (Look::Bang(a), Look::Bang(b)) => compare_parts(a, b),
        (Look::Pair(a, b), Look::Pair(c, d)) => match compare_parts(a, c) {
            Ordering::Equal => compare_parts(b, d),
            unequal => unequal,
        },
        _ => place(&left).cmp(&place(&right)),
    }
}

/// A value as an element.
#[derive(Clone, Copy)]
pub struct Held<'a> {
    value: &'a Value,
}

impl<'a> Element for Held<'a> {
    ghost element = { λ held. flat_of held.value.now };

    fn compare(&self, other: &Held<'a>) -> Ordering {
        compare_parts(Part::Whole(self.value), Part::Whole(other.value))
    }
}

fn elements_of<'a>(alloc: Global, values: &'a [Value]) -> Result<Vec<Held<'a>>, NoMemory>
    ensures is { IfOk result (λ elements. map (λ h. flat_of h.value.now) elements.items ≡ flats_of values.now) }
    ensures few { IfOk result (λ elements. length elements.items ≡ length values.now) }
{
    let mut elements = Vec::with_capacity(alloc, values.len())?;
    for value in values {
        if let Err(_) = elements.push(Held { value }) {
            return Err(NoMemory);
        }
    }
    Ok(elements)
}

/// How far two bags are apart: as many elements as are left of both when equal ones are paired off.
///
/// A value that is shared is gone through as the tree that it stands for.
pub fn bag_distance(alloc: Global, xs: &[Value], ys: &[Value]) -> Result<u64, NoMemory>
    requires left { AllFlat xs.now }
    requires right { AllFlat ys.now }
    ensures { IfOk result (λ n. n ≡ bag_distance (flats_of xs.now) (flats_of ys.now)) }
{
    let left = elements_of(alloc, xs)?;
    let right = elements_of(alloc, ys)?;
    Ok(bags_apart(left, right))
}

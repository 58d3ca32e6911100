//! Lists sorted, and gone through side by side.
ghost use Rattle.std.specs.Prelude.{◌≡◌, ◌+◌, ◌<◌, ◌^◌, length, map};
ghost use Rattle.std.specs.List.Sorted.{IsPermutation, IsSorted};
ghost use Rattle.metric_values.specs.Distances.{bag_distance};
ghost use Rattle.metric_values.specs.Values.{Flat};
ghost use Rattle.value_distance.specs.Order.{element_cmp};

use std::cmp::Ordering;

/// What stands for an element of a bag.
pub trait Element {
    ghost element: { Self → Flat };

    /// Which of two stands first.
    fn compare(&self, other: &Self) -> Ordering
        ensures { result ≡ element_cmp (element self.now) (element other.now) };
}

fn sort<E: Element>(items: &mut Vec<E>)
    ensures permutation { IsPermutation items.old.items items.new.items }
    ensures sorted { IsSorted (λ a b. element_cmp (E.element a) (E.element b)) items.new.items }
{
    items.sort_unstable_by(|a, b| a.compare(b));
}

// How many of both lists are left when equal ones are paired off.
fn count_unpaired<E: Element>(xs: &[E], ys: &[E]) -> u64
    requires left_sorted { IsSorted (λ a b. element_cmp (E.element a) (E.element b)) xs.now }
    requires right_sorted { IsSorted (λ a b. element_cmp (E.element a) (E.element b)) ys.now }
    requires countable { length xs.now + length ys.now < 2 ^ 64 }
    ensures { result ≡ bag_distance (map E.element xs.now) (map E.element ys.now) }
{
    let (mut i, mut j, mut unpaired) = (0, 0, 0);
    while i < xs.len() && j < ys.len() {
        match xs[i].compare(&ys[j]) {
            Ordering::Less => {
                i += 1;
                unpaired += 1;
            }
            Ordering::Equal => {
                i += 1;
                j += 1;
            }
            Ordering::Greater => {
                j += 1;
                unpaired += 1;
            }
        }
    }
    unpaired + (xs.len() - i) as u64 + (ys.len() - j) as u64
}

/// How far two bags of such elements are apart.
pub fn bags_apart<E: Element + Drop>(mut xs: Vec<E>, mut ys: Vec<E>) -> u64
    requires { length xs.items + length ys.items < 2 ^ 64 }
    ensures { result ≡ bag_distance (map E.element xs.items) (map E.element ys.items) }
{
    sort(&mut xs);
    sort(&mut ys);
    count_unpaired(xs.as_slice(), ys.as_slice())
}

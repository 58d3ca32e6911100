//! Lists of a catalog, whose items are read one after another.
ghost use Rattle.std.specs.Prelude.{◌≡◌, ◌⊎◌, ◌≤◌, ℕ, List, [], map, length, bytes_eq, IfOk, IfErr, IsSome, Result, Ok, Err, false};
ghost use Rattle.std.specs.List.{IsDistinct};
ghost use Rattle.serde_json.specs.Data.{Data};
ghost use Rattle.serde_json.specs.View.{view};
ghost use Rattle.owner_catalog.specs.Plain.{HasNoFloat};
ghost use Rattle.serde_json.specs.Find.{get};
ghost use Rattle.serde_json.specs.Written.{has_float};
ghost use Rattle.owner_catalog.specs.Members.{member_name};
ghost use Rattle.owner_catalog.specs.Fault.{here, list_in, optional_in, the};

use crate::fault::{CatalogFault, FaultKind, Member, Place};
use crate::member::member_name;
use crate::named::Named;
use crate::names::Names;
use crate::parts::{counted, the};
use serde_json::Value;
use std::alloc::Global;

/// An item of a list. `C` is what must be known to read it, such as whose it is.
pub(crate) trait Item<C>: Named {
    ghost use Rattle.owner_catalog.specs.declared.fault.CatalogFault.{CatalogFault};
    ghost use Rattle.owner_catalog.specs.declared.fault.CatalogFault.TheVariants.{NoMemory};
    ghost use Rattle.owner_catalog.specs.declared.fault.Place.{Place};

    ghost place_of: { C → ℕ → Place };

    ghost read_of: { C → ℕ → Data → Result Self CatalogFault };

    /// The place of the item of this number.
    fn place(context: &C, number: u32) -> Place
        ensures { result ≡ place_of context.now number };

    /// Reads the item of this number.
    fn read(alloc: Global, value: &Value, context: &C, number: u32) -> Result<Self, CatalogFault>
        ensures item { IfOk result (λ item. read_of context.now number (view value.now) ≡ Ok item) }
        ensures fault { IfErr result (λ fault. (fault ≡ NoMemory) ⊎ (read_of context.now number (view value.now) ≡ Err fault)) }
        ensures plain { IfOk result (λ _. HasNoFloat value.now) };
}

/// The items of a list, and their names in the same order.
#[derive(Drop)]
pub(crate) struct Listed<T> {
    pub(crate) items: Vec<T>,
    pub(crate) names: Names,
}

/// The list that a member is, of so many items, each of another name.
#[tactic(auto, using(crate::proofs::Lists::items_fault, crate::proofs::Lists::items_double), unfolding(crate::specs::Fault::list_in))]
pub(crate) fn list<C, T: Item<C> + Drop>(
    alloc: Global,
    value: &Value,
    member: Member,
    least: u32,
    most: u32,
    at: Place,
    context: &C,
) -> Result<Listed<T>, CatalogFault>
    requires { IsSome (get (member_name member) (view value.now)) }
    ensures list { IfOk result (λ found. list_in least most (here at member) T.name_of (T.place_of context.now) (T.read_of context.now)
        (the member (view value.now)) ≡ Ok found.items.items) }
    ensures fault { IfErr result (λ fault. (fault ≡ CatalogFault.NoMemory)
        ⊎ (list_in least most (here at member) T.name_of (T.place_of context.now) (T.read_of context.now) (the member (view value.now)) ≡ Err fault)) }
    ensures some { IfOk result (λ found. least ≤ length found.items.items) }
    ensures few { IfOk result (λ found. length found.items.items ≤ most) }
    ensures distinct { IfOk result (λ found. IsDistinct bytes_eq (map T.name_of found.items.items)) }
    ensures names { IfOk result (λ found. found.names ≡ map T.name_of found.items.items) }
    ensures plain { IfOk result (λ _. has_float (the member (view value.now)) ≡ false) }
{
    let mut found = Vec::new(alloc);
    let mut names = Names::new(alloc);
    let items = counted(the(member, value), least, most, at.of(member))?;
    for item in items {
        let number = found.len() as u32;
        let read = T::read(alloc, item, context, number)?;
        let added = names.add(alloc, read.name())?;
        if !added {
            return Err(CatalogFault::Bad {
                kind: FaultKind::Double,
                at: T::place(context, number),
            });
        }
        found.push(read)?;
    }
    Ok(Listed {
        items: found,
        names,
    })
}

/// The items of such a list, without their names.
pub(crate) fn items<C, T: Item<C> + Drop>(
    alloc: Global,
    value: &Value,
    member: Member,
    least: u32,
    most: u32,
    at: Place,
    context: &C,
) -> Result<Vec<T>, CatalogFault>
    requires { IsSome (get (member_name member) (view value.now)) }
    ensures list { IfOk result (λ found. list_in least most (here at member) T.name_of (T.place_of context.now) (T.read_of context.now)
        (the member (view value.now)) ≡ Ok found.items) }
    ensures fault { IfErr result (λ fault. (fault ≡ CatalogFault.NoMemory)
        ⊎ (list_in least most (here at member) T.name_of (T.place_of context.now) (T.read_of context.now) (the member (view value.now)) ≡ Err fault)) }
    ensures some { IfOk result (λ found. least ≤ length found.items) }
    ensures few { IfOk result (λ found. length found.items ≤ most) }
    ensures distinct { IfOk result (λ found. IsDistinct bytes_eq (map T.name_of found.items)) }
    ensures plain { IfOk result (λ _. has_float (the member (view value.now)) ≡ false) }
{
    Ok(list(alloc, value, member, least, most, at, context)?.items)
}

/// The items of a list that an object may lack: none where it does.
pub(crate) fn optional_items<C, T: Item<C> + Drop>(
    alloc: Global,
    value: &Value,
    member: Member,
    most: u32,
    at: Place,
    context: &C,
) -> Result<Vec<T>, CatalogFault>
    ensures list { IfOk result (λ found. optional_in [] (list_in 0 most (here at member) T.name_of (T.place_of context.now) (T.read_of context.now))
        (get (member_name member) (view value.now)) ≡ Ok found.items) }
    ensures fault { IfErr result (λ fault. (fault ≡ CatalogFault.NoMemory)
        ⊎ (optional_in [] (list_in 0 most (here at member) T.name_of (T.place_of context.now) (T.read_of context.now))
        (get (member_name member) (view value.now)) ≡ Err fault)) }
    ensures plain { IfOk result (λ _. has_float (the member (view value.now)) ≡ false) }
{
    if value.get(member_name(member)).is_none() {
        return Ok(Vec::new(alloc));
    }
    items(alloc, value, member, 0, most, at, context)
}

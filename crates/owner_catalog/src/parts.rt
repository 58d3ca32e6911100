//! The parts of a catalog, read from JSON values.
ghost use Rattle.std.specs.Prelude.{◌≡◌, ◌⊎◌, ◌≤◌, ℕ, List, map, true, false, length, IfOk, IfErr, IsSome, Ok, Err, not, option_map, string_bytes, string_cmp};
ghost use Rattle.std.specs.List.{AllByRecursion, find};
ghost use Rattle.std.specs.List.Sorted.{IsStrictlySortedBy};
ghost use Rattle.std.specs.Map.{keys_of};
ghost use Rattle.serde_json.specs.Data.{Data};
ghost use Rattle.serde_json.specs.Find.{get};
ghost use Rattle.serde_json.specs.View.{view};
ghost use Rattle.serde_json.specs.Written.{has_float};
ghost use Rattle.owner_catalog.specs.Members.{member_name};
ghost use Rattle.owner_catalog.specs.Forms.{has_form};
ghost use Rattle.owner_catalog.specs.Plain.{HasNoFloat};
ghost use Rattle.owner_catalog.specs.Fault.{here, the, formed_text_in, bounded_number_in, object_in, counted_in, first_missing, has_or_may_lack, is_known};

use crate::fault::{CatalogFault, FaultKind, Member, Place};
use crate::member::{may_lack, member_name};
use crate::named::Label;
use crate::text::{Form, has_form};
use serde_json::{Map, Value};
use std::alloc::Global;

/// A text of this form.
#[tactic(auto, unfolding(crate::specs::Fault::formed_text_in))]
pub(crate) fn text(
    alloc: Global,
    value: &Value,
    form: Form,
    at: Place,
) -> Result<String, CatalogFault>
    ensures text { IfOk result (λ s. formed_text_in (has_form form) at (view value.now) ≡ Ok (string_bytes s)) }
    ensures fault { IfErr result (λ f. (f ≡ CatalogFault.NoMemory) ⊎ (formed_text_in (has_form form) at (view value.now) ≡ Err f)) }
    ensures plain { IfOk result (λ _. HasNoFloat value.now) }
{
    let Some(text) = value.as_str() else {
        return Err(CatalogFault::Bad {
            kind: FaultKind::Kind,
            at,
        });
    };
    if !has_form(form, text) {
        return Err(CatalogFault::Bad {
            kind: FaultKind::Form,
            at,
        });
    }
    Ok(String::from_str(alloc, text)?)
}

/// A whole number within these limits.
#[tactic(auto, unfolding(crate::specs::Fault::bounded_number_in))]
pub(crate) fn number(value: &Value, least: u64, most: u64, at: Place) -> Result<u64, CatalogFault>
    ensures number { IfOk result (λ n. bounded_number_in least most at (view value.now) ≡ Ok n) }
    ensures fault { IfErr result (λ f. bounded_number_in least most at (view value.now) ≡ Err f) }
    ensures few { IfOk result (λ n. n ≤ most) }
    ensures plain { IfOk result (λ _. HasNoFloat value.now) }
{
    match value.as_u64() {
        Some(number) if least <= number && number <= most => Ok(number),
        Some(_) => Err(CatalogFault::Bad {
            kind: FaultKind::Range,
            at,
        }),
        None => Err(CatalogFault::Bad {
            kind: FaultKind::Kind,
            at,
        }),
    }
}

/// The value of a member that an object has.
pub(crate) fn the(member: Member, value: &Value) -> &Value
    requires { IsSome (get (member_name member) (view value.now)) }
    ensures { view result.now ≡ the member (view value.now) }
{
    &value[member_name(member)]
}

/// The text of a member, of this form.
pub(crate) fn member_text(
    alloc: Global,
    value: &Value,
    member: Member,
    form: Form,
    at: Place,
) -> Result<String, CatalogFault>
    requires { IsSome (get (member_name member) (view value.now)) }
    ensures text { IfOk result (λ s. formed_text_in (has_form form) (here at member) (the member (view value.now)) ≡ Ok (string_bytes s)) }
    ensures fault { IfErr result (λ f. (f ≡ CatalogFault.NoMemory)
        ⊎ (formed_text_in (has_form form) (here at member) (the member (view value.now)) ≡ Err f)) }
    ensures plain { IfOk result (λ _. has_float (the member (view value.now)) ≡ false) }
{
    text(alloc, the(member, value), form, at.of(member))
}

/// The whole number of a member, within these limits.
pub(crate) fn member_number(
    value: &Value,
    member: Member,
    least: u64,
    most: u64,
    at: Place,
) -> Result<u64, CatalogFault>
    requires { IsSome (get (member_name member) (view value.now)) }
    ensures number { IfOk result (λ n. bounded_number_in least most (here at member) (the member (view value.now)) ≡ Ok n) }
    ensures fault { IfErr result (λ f. bounded_number_in least most (here at member) (the member (view value.now)) ≡ Err f) }
    ensures few { IfOk result (λ n. n ≤ most) }
    ensures plain { IfOk result (λ _. has_float (the member (view value.now)) ≡ false) }
{
    number(the(member, value), least, most, at.of(member))
}

fn has_or_may_lack(value: &Value, member: Member) -> bool
    ensures { result ≡ has_or_may_lack (view value.now) member }
{
    may_lack(member) || value.get(member_name(member)).is_some()
}

fn first_missing(expected: &[Member], value: &Value) -> Option<Member>
    ensures { result ≡ first_missing expected.now (view value.now) }
{
    expected
        .iter()
        .copied()
        .find(|member| !has_or_may_lack(value, *member))
}

fn is_known(expected: &[Member], name: &str) -> bool
    ensures { result ≡ is_known expected.now name.now }
{
    expected.iter().any(|member| name == member_name(*member))
}

fn first_unknown<'a>(expected: &[Member], members: &'a Map<String, Value>) -> Option<&'a String>
    ensures unknown { option_map (λ k. k.now) result ≡ find (λ k. not (is_known expected.now (string_bytes k))) (keys_of members.now.entries) }
    ensures ordered { IsStrictlySortedBy string_cmp (keys_of members.now.entries) }
{
    members
        .keys()
        .find(|name| !is_known(expected, name.as_str()))
}

/// Whether an object has just these members. `at` is the object's own place.
#[tactic(auto, using(crate::proofs::Values::all_there, crate::proofs::Values::unknown_of), unfolding(crate::specs::Fault::object_in))]
pub(crate) fn object(
    alloc: Global,
    expected: &[Member],
    value: &Value,
    at: Place,
) -> Result<(), CatalogFault>
    ensures object { IfOk result (λ done. object_in expected.now at.member (here at) (view value.now) ≡ Ok done) }
    ensures fault { IfErr result (λ f. (f ≡ CatalogFault.NoMemory) ⊎ (object_in expected.now at.member (here at) (view value.now) ≡ Err f)) }
    ensures there { IfOk result (λ _. AllByRecursion (λ m. has_or_may_lack (view value.now) m ≡ true) expected.now) }
    ensures plain { IfOk result (λ _. AllByRecursion (λ m. has_float (the m (view value.now)) ≡ false) expected.now → HasNoFloat value.now) }
{
    let Some(members) = value.as_object() else {
        return Err(CatalogFault::Bad {
            kind: FaultKind::Kind,
            at,
        });
    };
    if let Some(member) = first_missing(expected, value) {
        return Err(CatalogFault::Bad {
            kind: FaultKind::Missing,
            at: at.of(member),
        });
    }
    if let Some(name) = first_unknown(expected, members) {
        let name = Label::new(String::from_str(alloc, name.as_str())?);
        return Err(CatalogFault::Bad {
            kind: FaultKind::Unknown(name),
            at,
        });
    }
    Ok(())
}

/// The items of a list of so many.
#[tactic(auto, using(crate::proofs::Values::counted_of, crate::proofs::Values::plain_array), unfolding(crate::specs::Fault::counted_in))]
pub(crate) fn counted(
    value: &Value,
    least: u32,
    most: u32,
    whole: Place,
) -> Result<&[Value], CatalogFault>
    ensures items { IfOk result (λ items. counted_in least most whole (view value.now) ≡ Ok (map view items.now)) }
    ensures fault { IfErr result (λ f. counted_in least most whole (view value.now) ≡ Err f) }
    ensures few { IfOk result (λ items. length items.now ≤ most) }
    ensures some { IfOk result (λ items. least ≤ length items.now) }
    ensures plain { IfOk result (λ items. AllByRecursion HasNoFloat items.now → HasNoFloat value.now) }
{
    match value.as_array() {
        Some(items) if least as usize <= items.len() && items.len() <= most as usize => Ok(
            items.as_slice(),
        ),
        Some(_) => Err(CatalogFault::Bad {
            kind: FaultKind::Count,
            at: whole,
        }),
        None => Err(CatalogFault::Bad {
            kind: FaultKind::Kind,
            at: whole,
        }),
    }
}

//! Names and what they stand for.
ghost use Rattle.std.specs.Prelude.{◌≡◌, ◌≤◌, ◌+◌, bytes_eq, max, IfOk, IfSome, IsSome, OnErr, OnOk, Some};
ghost use Rattle.fz_ast.specs.Names.{name_of};
ghost use Rattle.metric_law.specs.Means.{find};
ghost use Rattle.metric_values.specs.Values.{Bind, Empty};
ghost use Rattle.flow_values.specs.Founds.{AreHalvesNamed, IsFoundFunction, IsFoundInPair, found_deep, plain_found, plain_of, rebound, value_found};
ghost use Rattle.flow_values.specs.Views.{scope_deep};
ghost use Rattle.run_values.specs.Parts.{IsPair, first_in, second_in};

use crate::plain::Plain;
use crate::value::{Closure, Element, Frame, Halves, Link, Scope, Value};
use fz_ast::{Name, NoMemory};
use std::alloc::Global;
use std::rc::Rc;

fn same_name(a: &Name, b: &Name) -> bool
    ensures { result ≡ bytes_eq (name_of a.now) (name_of b.now) }
{
    a.as_bytes() == b.as_bytes()
}

// The scope inside a name for the first half of a pair.
fn first_of(alloc: Global, name: Name, pair: &Value, outer: &Scope) -> Result<Scope, NoMemory>
    requires { IsPair pair.now.means }
    ensures means { IfOk result (λ s. s.means ≡ Bind (name_of name) (first_in pair.now.means) outer.now.means) }
    ensures deep { IfOk result (λ s. s.deep ≤ scope_deep pair.now.deep outer.now.deep) }
{
    let first = pair.first()?;
    outer.with(alloc, name, first)
}

impl Scope {
    /// No names.
    pub fn new() -> Scope
        ensures { result.means ≡ Empty }
    {
        Scope { link: Link::End }
    }

    /// The scope inside one more name.
    pub fn with(&self, alloc: Global, name: Name, value: Value) -> Result<Scope, NoMemory>
        ensures means { IfOk result (λ s. s.means ≡ Bind (name_of name) value.means self.now.means) }
        ensures deep { IfOk result (λ s. s.deep ≡ scope_deep value.deep self.now.deep) }
    {
        let outer = self.copy()?;
        match Rc::new(alloc, Frame { name, value, outer }) {
            Ok(rc) => Ok(Scope {
                link: Link::More(rc),
            }),
            Err(_) => Err(NoMemory),
        }
    }

    /// The scope inside two more names, which stand for the halves of a pair.
    pub fn with_halves(
        &self,
        alloc: Global,
        first: &Name,
        second: &Name,
        pair: Value,
    ) -> Result<Scope, NoMemory>
        requires { IsPair pair.means }
        ensures means { IfOk result (λ s.
            s.means ≡ Bind (name_of second.now) (second_in pair.means) (Bind (name_of first.now) (first_in pair.means) self.now.means)) }
        ensures deep { IfOk result (λ s. s.deep ≡ scope_deep pair.deep self.now.deep + 2) }
    {
        let halves = Halves {
            first: *first,
            second: *second,
            pair,
            outer: self.copy()?,
        };
        match Rc::new(alloc, halves) {
            Ok(rc) => Ok(Scope {
                link: Link::Halves(rc),
            }),
            Err(_) => Err(NoMemory),
        }
    }

    /// The scope inside one more name, for elements of a bag, whose halves get these names where they are taken apart.
    pub fn with_element(
        &self,
        alloc: Global,
        name: &Name,
        first: &Name,
        second: &Name,
        value: Value,
    ) -> Result<Scope, NoMemory>
        ensures means { IfOk result (λ s. s.means ≡ Bind (name_of name.now) value.means self.now.means) }
        ensures deep { IfOk result (λ s. s.deep ≡ scope_deep value.deep self.now.deep) }
    {
        let element = Element {
            name: *name,
            first: *first,
            second: *second,
            value,
            outer: self.copy()?,
        };
        match Rc::new(alloc, element) {
            Ok(rc) => Ok(Scope {
                link: Link::Element(rc),
            }),
            Err(_) => Err(NoMemory),
        }
    }

    /// The scope inside these names for the halves of what the innermost name stands for, if it is this name and its frame has them.
    pub fn opened(
        &self,
        name: &Name,
        first: &Name,
        second: &Name,
    ) -> Result<Option<Scope>, NoMemory>
        ensures names { IfOk result (λ o. IfSome o (λ s. AreHalvesNamed self.now.means (name_of name.now) (name_of first.now) (name_of second.now) s.means)) }
        ensures deep { IfOk result (λ o. IfSome o (λ s. s.deep ≤ self.now.deep + 4)) }
    {
        let Link::Element(rc) = &self.link else {
            return Ok(None);
        };
        if same_name(&rc.name, name)
            && same_name(&rc.first, first)
            && same_name(&rc.second, second)
            && rc.value.is_pair()
        {
            let link = Link::Opened(rc.clone()?);
            return Ok(Some(Scope { link }));
        }
        Ok(None)
    }

    /// The innermost name, if there is one, stands for another value from now on: in the same frame, where no closure holds it.
    pub fn rebind(&mut self, alloc: Global, value: Value) -> Result<(), NoMemory>
        ensures rebound { OnOk result (self.new.means ≡ rebound self.old.means value.means) }
        ensures unchanged { OnErr result (self.new ≡ self.old) }
        ensures deep { OnOk result (self.new.deep ≤ max self.old.deep (value.deep + 2)) }
    {
        match &mut self.link {
            Link::More(rc) => {
                if let Some(frame) = Rc::get_mut(rc) {
                    frame.value = value;
                    return Ok(());
                }
            }
            Link::Element(rc) => {
                if let Some(element) = Rc::get_mut(rc) {
                    element.value = value;
                    return Ok(());
                }
            }
            _ => {}
        }
        let fresh = self.rebound_apart(alloc, value)?;
        *self = fresh;
        Ok(())
    }

    // The scope in which the innermost name, if there is one, stands for another value.
    #[inline(never)]
    fn rebound_apart(&self, alloc: Global, value: Value) -> Result<Scope, NoMemory>
        ensures means { IfOk result (λ s. s.means ≡ rebound self.now.means value.means) }
        ensures deep { IfOk result (λ s. s.deep ≤ max self.now.deep (value.deep + 2)) }
    {
        match &self.link {
            Link::End => Ok(Scope::new()),
            Link::More(rc) => rc.outer.with(alloc, rc.name, value),
            Link::Element(rc) => {
                rc.outer
                    .with_element(alloc, &rc.name, &rc.first, &rc.second, value)
            }
            Link::Halves(rc) => {
                let outer = first_of(alloc, rc.first, &rc.pair, &rc.outer)?;
                outer.with(alloc, rc.second, value)
            }
            Link::Opened(rc) => {
                let whole = rc.outer.with(alloc, rc.name, rc.value.copy()?)?;
                let outer = first_of(alloc, rc.first, &rc.value, &whole)?;
                outer.with(alloc, rc.second, value)
            }
        }
    }

    /// An equal scope.
    pub fn copy(&self) -> Result<Scope, NoMemory>
        ensures { IfOk result (λ s. s ≡ self.now) }
    {
        let link = match &self.link {
            Link::End => Link::End,
            Link::More(rc) => Link::More(rc.clone()?),
            Link::Halves(rc) => Link::Halves(rc.clone()?),
            Link::Element(rc) => Link::Element(rc.clone()?),
            Link::Opened(rc) => Link::Opened(rc.clone()?),
        };
        Ok(Scope { link })
    }
}

// Where what a name stands for is found.
#[derive(Clone, Copy)]
enum Found<'a> {
    None,
    Whole(&'a Value),
    /// The first half of a pair.
    First(&'a Value),
    Second(&'a Value),
}

impl Scope {
    // Where what the innermost of these names stands for is found.
    fn found(&self, name: &Name) -> Found<'_>
        ensures is { value_found result ≡ find self.now.means (name_of name.now) }
        ensures pair { IsFoundInPair result }
        ensures deep { found_deep result ≤ self.now.deep }
    {
        match &self.link {
            Link::End => Found::None,
            Link::More(rc) => {
                if rc.name.as_bytes() == name.as_bytes() {
                    Found::Whole(&rc.value)
                } else {
                    rc.outer.found(name)
                }
            }
            Link::Element(rc) => {
                if same_name(&rc.name, name) {
                    Found::Whole(&rc.value)
                } else {
                    rc.outer.found(name)
                }
            }
            Link::Halves(rc) => {
                if same_name(&rc.second, name) {
                    Found::Second(&rc.pair)
                } else if same_name(&rc.first, name) {
                    Found::First(&rc.pair)
                } else {
                    rc.outer.found(name)
                }
            }
            Link::Opened(rc) => {
                if same_name(&rc.second, name) {
                    Found::Second(&rc.value)
                } else if same_name(&rc.first, name) {
                    Found::First(&rc.value)
                } else if same_name(&rc.name, name) {
                    Found::Whole(&rc.value)
                } else {
                    rc.outer.found(name)
                }
            }
        }
    }

    /// What the innermost of these names stands for.
    pub fn find(&self, name: &Name) -> Result<Value, NoMemory>
        requires { IsSome (find self.now.means (name_of name.now)) }
        ensures means { IfOk result (λ v. find self.now.means (name_of name.now) ≡ Some v.means) }
        ensures deep { IfOk result (λ v. v.deep ≤ self.now.deep) }
    {
        match self.found(name) {
            Found::Whole(value) => value.copy(),
            Found::First(pair) => pair.first(),
            Found::Second(pair) => pair.second(),
            Found::None => unreachable!(),
        }
    }

    /// The number or text that the innermost of these names stands for.
    pub fn find_plain(&self, name: &Name) -> Plain<'_>
        ensures { plain_of result ≡ plain_found (find self.now.means (name_of name.now)) }
    {
        match self.found(name) {
            Found::Whole(value) => value.plain(),
            Found::First(pair) => pair.first_plain(),
            Found::Second(pair) => pair.second_plain(),
            Found::None => Plain::Other,
        }
    }

    /// The function that the innermost of these names stands for, if that is one and no half of a pair.
    pub fn find_function(&self, name: &Name) -> Option<&Closure>
        ensures { IfSome result (λ c. IsFoundFunction self.now.means (name_of name.now) c.now) }
    {
        match self.found(name) {
            Found::Whole(value) => value.as_function(),
            _ => None,
        }
    }
}

//! The names in scope, and each once in byte order.
ghost use Rattle.std.specs.Prelude.{◌≡◌, ◌++◌, ◌∷◌, IfOk};
ghost use Rattle.fz_ast.specs.Names.{name_of};
ghost use Rattle.fz_derive.specs.Least.{put};
ghost use Rattle.fz_derive.specs.Putting.{AreBefore, begins_with, names_in, put_here, sorted_in};

use derivation_lines::line::byte_order;
use derivation_rows::numbers::is_same;
use derivation_rows::scope::{Bound, under};
use fz_ast::{Name, NoMemory};
use std::alloc::{AllocError, Global};
use std::cmp::Ordering;

/// The names in scope with their types, the innermost first, and the names alone, each once and in byte order.
#[derive(Drop)]
pub struct Scope {
    pub bounds: Vec<Bound>,
    pub names: Vec<Name>,
    pub ghost sorted: { names_in names.items ≡ sorted_in bounds.items },
}

// How many of the names, from the first on, stand before this one.
fn names_before(names: &[Name], x: &Name) -> usize
    ensures { AreBefore (name_of x.now) (names_in names.now) result }
{
    for i in 0..names.len() {
        match byte_order(x, &names[i]) {
            Ordering::Greater => {}
            _ => return i,
        }
    }
    names.len()
}

fn begins_with(names: &[Name], x: &Name) -> bool
    ensures { result ≡ begins_with (name_of x.now) (names_in names.now) }
{
    !names.is_empty() && is_same(&names[0], x)
}

// A name and those behind it, of which it may be the first.
fn put_here(out: &mut Vec<Name>, x: Name, later: &[Name]) -> Result<(), AllocError>
    ensures { IfOk result (λ _. names_in out.new.items ≡ names_in out.old.items ++ put_here (name_of x) (names_in later.now)) }
{
    if begins_with(later, &x) {
        return out.extend_from_slice(later);
    }
    out.push(x)?;
    out.extend_from_slice(later)
}

// The names with one more, each once and in byte order.
fn names_with(alloc: Global, names: &[Name], x: Name) -> Result<Vec<Name>, AllocError>
    ensures { IfOk result (λ out. names_in out.items ≡ put (name_of x) (names_in names.now)) }
{
    let at = names_before(names, &x);
    let mut out = Vec::new(alloc);
    out.extend_from_slice(&names[..at])?;
    put_here(&mut out, x, &names[at..])?;
    Ok(out)
}

// The names in scope, each once and in byte order.
fn sorted(alloc: Global, bounds: &[Bound]) -> Result<Vec<Name>, NoMemory>
    ensures { IfOk result (λ names. names_in names.items ≡ sorted_in bounds.now) }
{
    let mut names = Vec::new(alloc);
    for i in (0..bounds.len()).rev() {
        let Ok(more) = names_with(alloc, &names, bounds[i].name) else {
            return Err(NoMemory);
        };
        names = more;
    }
    Ok(names)
}

impl Scope {
    /// The scope of these names, the innermost first.
    pub fn of(alloc: Global, bounds: Vec<Bound>) -> Result<Scope, NoMemory>
        ensures { IfOk result (λ scope. scope.bounds.items ≡ bounds.items) }
    {
        let names = sorted(alloc, &bounds)?;
        Ok(Scope { bounds, names })
    }

    /// The scope inside one more name.
    pub fn inside(&self, alloc: Global, bound: Bound) -> Result<Scope, NoMemory>
        ensures { IfOk result (λ inner. inner.bounds.items ≡ bound ∷ self.now.bounds.items) }
    {
        let bounds = under(alloc, &self.bounds, bound)?;
        let Ok(names) = names_with(alloc, &self.names, bound.name) else {
            return Err(NoMemory);
        };
        Ok(Scope { bounds, names })
    }
}

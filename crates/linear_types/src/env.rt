//! Environments: a sensitivity for each name.
ghost use Rattle.std.specs.Prelude.{◌≡◌, ◌↔◌, [], length, IsTrue, IfErr, IfOk, OnErr, MatchOption, MatchResult};
ghost use Rattle.fz_frac.specs.Distance.{none};
ghost use Rattle.fz_frac.specs.Sens.{distance_of};
ghost use Rattle.fz_ast.specs.Names.{name_of};
ghost use Rattle.linear_types.specs.Environment.{amount_of, sum_of, product_of, greater_of, HasEach, IsAbsent, IsCauseFor, IsEnvironment, IsInRange, IsSet};
ghost use Rattle.linear_types.specs.Entries.{amounts_of, IsPlace};
ghost use Rattle.linear_types.specs.declared.places.EnvFault.TheVariants.{NoMemory};

use crate::places::EnvFault;
use fz_ast::Name;
use fz_frac::Sens;
use std::alloc::{AllocFailed, Global};
use std::marker::Model;

/// A name, and how sensitive a value is to it.
#[derive(Clone, Copy)]
pub struct Entry {
    pub name: Name,
    pub r: Sens,
}

/// The sensitivity for each name, 0 for a name that has no entry. The entries have distinct names
/// and aren't at 0, and their order means nothing. A look-up goes over the entries one by one, so a
/// sum takes time by the product of both lengths: an environment has some dozens of names. The checker
/// goes by places and gives an environment at its end; `plus`, `scale` and `join` are for a caller that
/// has environments by name, and nothing else here calls them.
#[derive(Drop)]
pub struct Env {
    entries: Vec<Entry>,
}

impl Model for Env {
    ghost use Rattle.linear_types.specs.Environment.{Amounts, IsEnvironment, amounts_code};
    ghost use Rattle.linear_types.specs.Entries.{amounts_of};

    ghost Value = { Amounts };

    ghost coded = { amounts_code };

    ghost view = { λ env. amounts_of env.entries.items };

    ghost invariant = { λ env. IsEnvironment (amounts_of env.entries.items) };
}

impl From<AllocFailed<Entry>> for EnvFault {
    ghost use Rattle.std.specs.Prelude.{◌≡◌};
    ghost use Rattle.linear_types.specs.declared.places.EnvFault.TheVariants.{NoMemory};

    ghost from_gives = { λ _ fault. fault ≡ NoMemory };

    fn from(_: AllocFailed<Entry>) -> EnvFault {
        EnvFault::NoMemory
    }
}

// The place of a name's entry.
fn place(entries: &[Entry], name: &[u8]) -> Option<usize>
    ensures { MatchOption result (IsAbsent name.now (amounts_of entries.now)) (λ i. IsPlace entries.now name.now i) }
{
    for i in 0..entries.len() {
        if entries[i].name.as_bytes() == name {
            return Some(i);
        }
    }
    None
}

impl Env {
    /// No names.
    pub fn new(alloc: Global) -> Env
        ensures { result ≡ [] }
    {
        Env {
            entries: Vec::new(alloc),
        }
    }

    /// How many names aren't at 0.
    pub fn len(&self) -> usize
        ensures { result ≡ length self.now }
    {
        self.entries.len()
    }

    pub fn is_empty(&self) -> bool
        ensures { IsTrue result ↔ (self.now ≡ []) }
    {
        self.entries.is_empty()
    }

    /// The names that aren't at 0, with their sensitivities.
    pub fn entries(&self) -> &[Entry]
        ensures are { amounts_of result.now ≡ self.now }
        ensures environment { IsEnvironment self.now }
        ensures in_range { IsInRange self.now }
    {
        &self.entries
    }

    /// The sensitivity for a name.
    pub fn amount(&self, name: &[u8]) -> Sens
        ensures { distance_of result ≡ amount_of self.now name.now }
    {
        match place(&self.entries, name) {
            Some(i) => self.entries[i].r,
            None => Sens::whole(0),
        }
    }

    /// Sets the sensitivity for a name. Where memory runs out, nothing changes.
    pub fn set(&mut self, name: Name, r: Sens) -> Result<(), EnvFault>
        ensures set { IfOk result (λ _. IsSet self.old (name_of name) (distance_of r) self.new) }
        ensures unchanged { OnErr result (self.new ≡ self.old) }
        ensures cause { IfErr result (λ fault. fault ≡ NoMemory) }
    {
        if r.le(Sens::whole(0)) {
            self.remove(name.as_bytes());
            return Ok(());
        }
        match place(&self.entries, name.as_bytes()) {
            Some(i) => self.entries[i] = Entry { name, r },
            None => self.entries.push(Entry { name, r })?,
        }
        Ok(())
    }

    /// Removes a name and gives its sensitivity. It takes no memory.
    pub fn take(&mut self, name: &str) -> Sens
        ensures amount { distance_of result ≡ amount_of self.old name.now }
        ensures removed { IsSet self.old name.now none self.new }
    {
        self.remove(name.as_bytes())
    }

    fn remove(&mut self, name: &[u8]) -> Sens
        ensures amount { distance_of result ≡ amount_of self.old name.now }
        ensures removed { IsSet self.old name.now none self.new }
    {
        match place(&self.entries, name) {
            Some(i) => self.entries.remove(i).r,
            None => Sens::whole(0),
        }
    }

    fn copy(&self) -> Result<Env, EnvFault>
        ensures same { MatchResult result (λ E. E ≡ self.now) (λ fault. fault ≡ NoMemory) }
        ensures in_range { IsInRange self.now }
    {
        let mut entries = Vec::new(*self.entries.allocator());
        for entry in &self.entries {
            entries.push(*entry)?;
        }
        Ok(Env { entries })
    }

    /// The sum for each name, or `Range` exactly where the sum of some name is out of range.
    pub fn plus(&self, other: &Env) -> Result<Env, EnvFault>
        ensures { MatchResult result (λ E. HasEach E (sum_of self.now other.now)) (λ fault. IsCauseFor fault (sum_of self.now other.now)) }
    {
        let mut sum = self.copy()?;
        for entry in &other.entries {
            let r = self.amount(entry.name.as_bytes()).add(entry.r)?;
            sum.set(entry.name, r)?;
        }
        Ok(sum)
    }

    /// Each sensitivity times `r`, or `Range` exactly where the product of some name is out of range.
    pub fn scale(&self, r: Sens) -> Result<Env, EnvFault>
        ensures { MatchResult result (λ E. HasEach E (product_of (distance_of r) self.now)) (λ fault. IsCauseFor fault (product_of (distance_of r) self.now)) }
    {
        let mut product = Env::new(*self.entries.allocator());
        for entry in &self.entries {
            product.set(entry.name, r.mul(entry.r)?)?;
        }
        Ok(product)
    }

    /// The greater of the two for each name.
    pub fn join(&self, other: &Env) -> Result<Env, EnvFault>
        ensures { MatchResult result (λ E. HasEach E (greater_of self.now other.now)) (λ fault. fault ≡ NoMemory) }
    {
        let mut join = self.copy()?;
        for entry in &other.entries {
            let r = self.amount(entry.name.as_bytes()).max(entry.r);
            join.set(entry.name, r)?;
        }
        Ok(join)
    }
}

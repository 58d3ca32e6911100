//! What the parts of one partition were charged.

ghost use Rattle.std.specs.Prelude.{◌≡◌, ℕ, ◌+◌, ◌-◌, ◌^◌, ◌<◌, ◌≤◌, max, [], length, vec_capacity, IfOk, IfErr};
ghost use Rattle.partition_charge.specs.Parts.{sum_of, sum_without, lowered, IsInOrder, AreBelow, IsAt, IsGapFor, HasPlaceIn, HasPut};

use std::alloc::{AllocError, Global};

// What a part was charged in all.
#[derive(Clone, Copy, Drop)]
struct PartSum {
    part: u16,
    sum: u64,
}

impl PartSum {
    // The sum, were this amount taken from this part.
    fn without(&self, part: u16, amount: u64) -> u64
        requires { self.now.part ≡ part → amount ≤ self.now.sum }
        ensures { result ≡ lowered part amount self.now }
    {
        if self.part == part {
            self.sum - amount
        } else {
            self.sum
        }
    }
}

// The sums of the parts that were charged, in order of the parts, and the greatest.
#[derive(Drop)]
pub(crate) struct Parts {
    sums: Vec<PartSum>,
    pub(crate) greatest: u64,
}

impl Parts {
    /// No sums, with room for this many.
    pub fn new(alloc: Global, room: usize) -> Result<Parts, AllocError>
        ensures sums { IfOk result (λ parts. parts.sums.items ≡ []) }
        ensures greatest { IfOk result (λ parts. parts.greatest ≡ 0) }
        ensures room { IfOk result (λ parts. vec_capacity parts.sums ≡ room) }
    {
        let sums = Vec::with_capacity(alloc, room)?;
        Ok(Parts { sums, greatest: 0 })
    }

    // Where the part's sum is, or where it would be put.
    fn place_of(&self, part: u16) -> Result<usize, usize>
        requires { IsInOrder self.now.sums.items }
        ensures found { IfOk result (IsAt self.now.sums.items part) }
        ensures missing { IfErr result (IsGapFor self.now.sums.items part) }
    {
        self.sums.binary_search_by_key(&part, |kept| kept.part)
    }

    // What the part was charged.
    fn sum(&self, part: u16) -> u64
        requires { IsInOrder self.now.sums.items }
        ensures { result ≡ sum_of self.now.sums.items part }
    {
        match self.place_of(part) {
            Ok(place) => self.sums[place].sum,
            Err(_) => 0,
        }
    }

    /// By how much the greatest sum rises if the part is charged this amount.
    pub fn rise(&self, part: u16, amount: u64) -> u64
        requires ordered { IsInOrder self.now.sums.items }
        requires fits { sum_of self.now.sums.items part + amount < 2 ^ 63 }
        ensures { result ≡ sum_of self.now.sums.items part + amount - self.now.greatest }
    {
        (self.sum(part) + amount).saturating_sub(self.greatest)
    }

    // Puts the part's sum where it is, or else in its place.
    fn put(&mut self, part: u16, sum: u64)
        requires ordered { IsInOrder self.old.sums.items }
        requires place { HasPlaceIn self.old part }
        ensures put { HasPut self.old part sum self.new }
        ensures greatest { self.new.greatest ≡ self.old.greatest }
    {
        match self.place_of(part) {
            Ok(place) => self.sums[place].sum = sum,
            Err(place) => self.sums.insert(place, PartSum { part, sum }).unwrap(),
        }
    }

    /// Charges the part.
    pub fn add(&mut self, part: u16, amount: u64)
        requires ordered { IsInOrder self.old.sums.items }
        requires place { HasPlaceIn self.old part }
        requires fits { sum_of self.old.sums.items part + amount < 2 ^ 63 }
        ensures put { HasPut self.old part (sum_of self.old.sums.items part + amount) self.new }
        ensures greatest { self.new.greatest ≡ max self.old.greatest (sum_of self.old.sums.items part + amount) }
    {
        let sum = self.sum(part) + amount;
        self.put(part, sum);
        self.greatest = self.greatest.max(sum);
    }

    /// The greatest sum, were this amount taken from the part.
    pub fn greatest_without(&self, part: u16, amount: u64) -> u64
        requires ordered { IsInOrder self.now.sums.items }
        requires enough { amount ≤ sum_of self.now.sums.items part }
        ensures most { (k : ℕ) → sum_without self.now.sums.items part amount k ≤ result }
        ensures least { (bound : ℕ) → ((k : ℕ) → sum_without self.now.sums.items part amount k ≤ bound) → result ≤ bound }
    {
        let mut greatest = 0;
        for kept in &self.sums {
            greatest = greatest.max(kept.without(part, amount));
        }
        greatest
    }

    /// Takes this amount from the part.
    pub fn take(&mut self, part: u16, amount: u64)
        requires ordered { IsInOrder self.old.sums.items }
        requires enough { amount ≤ sum_of self.old.sums.items part }
        ensures taken { HasPut self.old part (sum_of self.old.sums.items part - amount) self.new }
        ensures count { length self.new.sums.items ≡ length self.old.sums.items }
        ensures below { (n : ℕ) → AreBelow n self.old.sums.items → AreBelow n self.new.sums.items }
        ensures most { (k : ℕ) → sum_without self.old.sums.items part amount k ≤ self.new.greatest }
        ensures least { (bound : ℕ) → ((k : ℕ) → sum_without self.old.sums.items part amount k ≤ bound) → self.new.greatest ≤ bound }
    {
        self.greatest = self.greatest_without(part, amount);
        if let Ok(place) = self.place_of(part) {
            self.sums[place].sum -= amount;
        }
    }
}

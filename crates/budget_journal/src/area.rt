//! Where the areas of a journal lie.

ghost use Rattle.std.specs.Prelude.{◌≡◌, ◌+◌, ◌*◌, ◌<◌, ◌≤◌, ◌^◌, min};
ghost use Rattle.budget_journal.specs.declared.form.Form.TheVariants.{Many};
ghost use Rattle.budget_journal.specs.Areas.{area_slots, area_begin, IsArea, area_in};

use crate::form::Form;

/// How many slots the first of many areas has, where the capacity is no less.
const FIRST_SLOTS: u32 = 64;

/// One area of a journal: where its slots begin and how many there are.
#[derive(Clone, Copy)]
pub(crate) struct Area {
    pub(crate) form: Form,
    /// How many records the journal may hold.
    pub(crate) capacity: u32,
    pub(crate) number: u32,
    pub(crate) begin: u64,
    pub(crate) slots: u32,
    ghost begins: { begin ≡ area_begin form capacity number },
    ghost counted: { slots ≡ area_slots form capacity number },
    ghost there: { IsArea form capacity number },
    // areas double, so those before one have fewer slots together
    ghost low: { slots < capacity → begin ≤ 128 + 64 * slots },
    ghost bounded: { begin ≤ 128 + 128 * capacity },
    ghost few: { number ≤ 26 },
}

// Twice as many slots, up to the capacity.
fn doubled(slots: u32, capacity: u32) -> u32
    requires { slots ≤ capacity }
    ensures { result ≡ min (2 * slots) capacity }
{
    if slots < capacity - slots {
        2 * slots
    } else {
        capacity
    }
}

// How many slots area 0 has.
fn first_slots(form: Form, capacity: u32) -> u32
    ensures { result ≡ area_slots form capacity 0 }
{
    match form {
        Form::One => capacity,
        Form::Many => FIRST_SLOTS.min(capacity),
    }
}

impl Area {
    /// Area 0, of a journal that may hold so many records.
    pub(crate) fn first(form: Form, capacity: u32) -> Area
        ensures form { result.form ≡ form }
        ensures capacity { result.capacity ≡ capacity }
        ensures number { result.number ≡ 0 }
    {
        Area {
            form,
            capacity,
            number: 0,
            begin: 128,
            slots: first_slots(form, capacity),
        }
    }

    /// The area behind this one.
    #[tactic(auto, using(crate::proofs::Next::next_slots, crate::proofs::Next::next_begin, crate::proofs::Next::next_there, crate::proofs::Next::next_few))]
    pub(crate) fn next(&self) -> Area
        requires { self.now.slots < self.now.capacity }
        ensures form { result.form ≡ self.now.form }
        ensures capacity { result.capacity ≡ self.now.capacity }
        ensures number { result.number ≡ self.now.number + 1 }
        ensures behind { result.begin ≡ self.now.begin + 64 * self.now.slots }
    {
        Area {
            form: self.form,
            capacity: self.capacity,
            number: self.number + 1,
            begin: self.begin + 64 * u64::from(self.slots),
            slots: doubled(self.slots, self.capacity),
        }
    }

    /// Where slot `slot` stands.
    pub(crate) fn place(&self, slot: u32) -> u64
        ensures { result ≡ self.now.begin + 64 * slot }
    {
        self.begin + 64 * u64::from(slot)
    }

    /// How long a file of so many bytes is to be, where this area is live.
    pub(crate) fn file_size(&self, bytes: u64) -> u64
        ensures { result ≡ (area_in self.now.form self.now.capacity self.now.number bytes).size }
    {
        let end = self.place(self.slots);
        match self.form {
            Form::One => end,
            Form::Many => bytes.max(end),
        }
    }
}

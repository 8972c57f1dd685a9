// The book's inner table of tasks, a plain one: what it has to keep is the book's to say.
ghost use Rattle.std.specs.Prelude.{◌≡◌, ◌<◌, false, replicate, is_ok, IfErr, IfSome, None, MatchOption};
ghost use Rattle.std.specs.Option.{option_map};
ghost use Rattle.book.specs.Tasks.{Distinct, Found, Put, Ranged, Ready, Removed, Vacant, has_room, held_under, record_of, vacant};
ghost use Rattle.book.specs.declared.fault.TaskFault.TheVariants.{Full};

use crate::fault::TaskFault;
use platform::{LawfulRecord, Number};

// The most tasks that a book holds.
pub const MAX_TASKS: usize = 32;

#[derive(Clone, Copy)]
pub struct Task {
    pub number: Number,
    pub record: LawfulRecord,
}

// One slot for each task that can be held, in place: no call allocates.
#[derive(Clone, Copy)]
pub struct Table {
    pub slots: [Option<Task>; MAX_TASKS],
}

// The slot whose task has the number.
fn slot_of(slots: &[Option<Task>; MAX_TASKS], number: Number) -> Option<usize>
    ensures { MatchOption result (held_under slots.now number ≡ None) (λ i. Found slots.now i number) }
{
    slots
        .iter()
        .position(|slot| slot.is_some_and(|task| number == task.number))
}

// A slot with no task.
fn free_slot(slots: &[Option<Task>; MAX_TASKS]) -> Option<usize>
    ensures { MatchOption result (vacant slots.now ≡ 0) (Vacant slots.now) }
{
    slots.iter().position(|slot| slot.is_none())
}

// The slot for a record under the number: the one that has the number, or a free one.
fn slot_for(slots: &[Option<Task>; MAX_TASKS], number: Number) -> Option<usize>
    ensures inside { IfSome result (λ i. i < 32) }
    ensures ready { Distinct slots.now → Ranged slots.now → MatchOption result (has_room slots.now number ≡ false) (λ i. Ready slots.now i number) }
{
    slot_of(slots, number).or_else(|| free_slot(slots))
}

impl Table {
    // A table that holds no task.
    pub fn empty() -> Table
        ensures { result.slots ≡ replicate 32 None }
    {
        Table {
            slots: [None; MAX_TASKS],
        }
    }

    // The record that is held under a number.
    pub fn get(&self, number: Number) -> Option<LawfulRecord>
        ensures { option_map record_of result ≡ held_under self.now.slots number }
    {
        let slot = slot_of(&self.slots, number)?;
        self.slots[slot].map(|task| task.record)
    }

    // Replaces the one record of a held number, or holds a new one where there is room for it.
    pub fn put(&mut self, number: Number, record: LawfulRecord) -> Result<(), TaskFault>
        ensures put { Distinct self.old.slots → Ranged self.old.slots → Put self.old.slots self.new.slots number «record».record (is_ok result) }
        ensures full { IfErr result (λ fault. fault ≡ Full) }
    {
        let slot = slot_for(&self.slots, number).ok_or(TaskFault::Full)?;
        self.slots[slot] = Some(Task { number, record });
        Ok(())
    }

    // Holds nothing under the number any more.
    pub fn remove(&mut self, number: Number)
        ensures { Distinct self.old.slots → Ranged self.old.slots → Removed self.old.slots self.new.slots number }
    {
        if let Some(slot) = slot_of(&self.slots, number) {
            self.slots[slot] = None;
        }
    }
}

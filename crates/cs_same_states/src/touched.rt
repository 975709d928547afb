//! The slots that some step changes, and the steps renumbered to these slots. The other slots have
//! the same in every state, so the slots of two states are compared without them. A slot's id is
//! its place among all slots of the tables. After an error some ids may have been appended; the
//! caller drops them.
ghost use Rattle.std.specs.Prelude.{◌≡◌, ◌+◌, ◌*◌, ◌<◌, ◌≤◌, ◌^◌, ℕ, fold, length, map, None, IfOk};
ghost use Rattle.std.specs.Prelude.{IfSome, OnOk};
ghost use Rattle.std.specs.List.{All};
ghost use Rattle.cs_apm.specs.Slots.{FitsIn, slot_at, slots_after, step_at};
ghost use Rattle.cs_same_states.specs.Places.{AreListed, AreRenumbered, HasRank, IsRank};
ghost use Rattle.cs_same_states.specs.Places.{IsRenumbered};
ghost use Rattle.cs_same_states.specs.Places.{IsUnlisted, Extends};

use cs_apm::slot::{Step, make_steps};
use cs_entries::Node;
use std::alloc::{AllocError, Global};

/// The slots that some step changes, in the order in which steps first name them.
#[derive(Debug, Drop)]
pub struct Touched {
    /// The ids of these slots.
    pub ids: Vec<u32>,
    /// What these slots have at the start, in the order of `ids`.
    pub slots: Vec<Option<Node>>,
    /// All steps of the trace. Their places are those in `ids`, not those of the tables.
    pub steps: Vec<Step>,
}

/// The place of the slot's id in `ids`; None if `ids` doesn't have the id.
fn place_of_id(ids: &[u32], id: u32) -> Option<usize>
    ensures found { IfSome result (HasRank ids.now id) }
    ensures none { result ≡ None → IsUnlisted ids.now id }
{
    for (place, other) in ids.iter().enumerate() {
        if *other == id {
            return Some(place);
        }
    }
    None
}

/// The place of the slot's id in `ids`. An id that isn't there is appended first.
fn place_or_append(ids: &mut Vec<u32>, id: u32) -> Result<u32, AllocError>
    requires { length ids.old.items < 2 ^ 32 }
    ensures { IfOk result (IsRank ids.old.items ids.new.items id) }
{
    if let Some(place) = place_of_id(ids, id) {
        return Ok(place as u32);
    }
    let place = ids.len() as u32;
    ids.push(id)?;
    Ok(place)
}

/// The step, with the places of its slots in `ids` in place of the slots' ids. Ids that aren't in
/// `ids` are appended to it.
fn renumber(ids: &mut Vec<u32>, step: Step) -> Result<Step, AllocError>
    requires { length ids.old.items + 2 < 2 ^ 32 }
    ensures step { IfOk result (IsRenumbered ids.new.items step) }
    ensures extends { OnOk result (Extends ids.old.items ids.new.items) }
    ensures few { OnOk result (length ids.new.items ≤ length ids.old.items + 2) }
{
    match step {
        Step::Set(id, slot) => Ok(Step::Set(place_or_append(ids, id)?, slot)),
        Step::Move(from, to) => {
            let from = place_or_append(ids, from)?;
            let to = place_or_append(ids, to)?;
            Ok(Step::Move(from, to))
        }
        Step::Other => Ok(Step::Other),
    }
}

/// The steps, each as `renumber` makes it. `ids` must be empty, and afterwards has the id of each
/// slot that a step changes, once. There may be at most 2^20 steps: each has two ids at most, so
/// there are less than 2^32.
fn renumber_all(alloc: Global, ids: &mut Vec<u32>, steps: &[Step]) -> Result<Vec<Step>, AllocError>
    requires none { length ids.old.items ≡ 0 }
    requires few { length steps.now ≤ 2 ^ 20 }
    ensures { IfOk result (λ made. AreRenumbered ids.new.items steps.now made.items) }
{
    let mut made = Vec::new(alloc);
    for step in steps {
        made.push(renumber(ids, *step)?)?;
    }
    Ok(made)
}

/// What is in each of the slots with these ids; None for an empty slot, and for an id out of range.
fn slots_at(
    alloc: Global,
    slots: &[Option<Node>],
    ids: &[u32],
) -> Result<Vec<Option<Node>>, AllocError>
    ensures { IfOk result (λ found. found.items ≡ map (slot_at slots.now) ids.now) }
{
    let mut found = Vec::new(alloc);
    for id in ids {
        found.push(slots.get(*id as usize).copied().unwrap_or(None))?;
    }
    Ok(found)
}

/// Empties the slots with these ids; an id out of range is skipped.
pub fn clear_slots(slots: &mut [Option<Node>], ids: &[u32])
    ensures long { length slots.new ≡ length slots.old }
    ensures others { (id : ℕ) → IsUnlisted ids.now id
        → slot_at slots.new id ≡ slot_at slots.old id }
{
    for id in ids {
        if (*id as usize) < slots.len() {
            slots[*id as usize] = None;
        }
    }
}

impl Touched {
    /// The slots that one of the steps changes, with the steps renumbered. `slots` are all slots at
    /// the start, and `steps` all steps, at most 2^20.
    pub fn of(alloc: Global, slots: &[Option<Node>], steps: &[Step]) -> Result<Touched, AllocError>
        requires { length steps.now ≤ 2 ^ 20 }
        ensures { IfOk result (λ touched. AreListed slots.now steps.now touched) }
    {
        let mut ids = Vec::new(alloc);
        let steps = renumber_all(alloc, &mut ids, steps)?;
        let slots = slots_at(alloc, slots, &ids)?;
        Ok(Touched { ids, slots, steps })
    }

    /// What these slots have if the steps at `places` are made in this order, from the start on, in
    /// the order of `ids`.
    pub fn slots_left(&self, alloc: Global, places: &[u32]) -> Result<Vec<Option<Node>>, AllocError>
        requires fit { All (FitsIn (length self.now.slots.items)) self.now.steps.items }
        requires inside { All (λ place. place < length self.now.steps.items) places.now }
        ensures { IfOk result
            (λ left. left.items
            ≡ fold slots_after self.now.slots.items
            (map (step_at self.now.steps.items) places.now)) }
    {
        let mut left = Vec::from_slice(alloc, &self.slots)?;
        make_steps(&mut left, &self.steps, places);
        Ok(left)
    }
}

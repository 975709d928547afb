//! Which entries some step touches, and which are kept: every state has the same there. In
//! `marks_of` the marks are by the entries' places; in the functions after it, marks and slots are
//! in an order of paths, so that their indices are ids.
ghost use Rattle.std.specs.Prelude.{◌≡◌, ◌+◌, ◌<◌, ◌^◌, ◌⊎◌, ℕ, cond, false, true};
ghost use Rattle.std.specs.Prelude.{length, IfOk};
ghost use Rattle.std.specs.List.{All};
ghost use Rattle.cs_apm.specs.Slots.{FitsIn};
ghost use Rattle.cs_state.specs.Numbers.{kept_at};
ghost use Rattle.cs_state.specs.Shares.{numbers_that_pass, mark_at, is_entry, is_in_every_state};
ghost use Rattle.cs_state.specs.Shares.{IsLeft, IsTouched, Leaves, Touches};

use cs_apm::slot::Step;
use cs_entries::Node;
use cs_paths::passing::push_if;
use std::alloc::{AllocError, Global};

/// Marks the entries that a step touches: two of a move, one of a `Step::Set`, none of a
/// `Step::Other`.
fn mark_touched(marks: &mut [bool], step: Step)
    requires { FitsIn (length marks.old) step }
    ensures long { length marks.new ≡ length marks.old }
    ensures left { (id : ℕ) → mark_at marks.new id ≡ false → (mark_at marks.old id ≡ false)
        × Leaves id step }
    ensures touched { (id : ℕ) → mark_at marks.new id ≡ true → (mark_at marks.old id ≡ true)
        ⊎ Touches id step }
{
    match step {
        Step::Set(place, _) => marks[place as usize] = true,
        Step::Move(from, to) => {
            marks[from as usize] = true;
            marks[to as usize] = true;
        }
        Step::Other => {}
    }
}

/// For each of `count` entries, by its place, whether one of the steps touches it.
pub fn marks_of(alloc: Global, steps: &[Step], count: usize) -> Result<Vec<bool>, AllocError>
    requires { All (FitsIn count) steps.now }
    ensures long { IfOk result (λ marks. length marks.items ≡ count) }
    ensures left { IfOk result
        (λ marks. (id : ℕ) → mark_at marks.items id ≡ false → IsLeft steps.now id) }
    ensures touched { IfOk result
        (λ marks. (id : ℕ) → mark_at marks.items id ≡ true → IsTouched steps.now id) }
{
    let mut marks = vec![in alloc; false; count]?;
    for step in steps {
        mark_touched(&mut marks, *step);
    }
    Ok(marks)
}

/// The marked ids, ascending: those of touched entries.
pub fn marked_ids(alloc: Global, marks: &[bool]) -> Result<Vec<u32>, AllocError>
    requires { length marks.now < 2 ^ 20 }
    ensures { IfOk result
        (λ found. found.items ≡ numbers_that_pass (mark_at marks.now) (length marks.now)) }
{
    let mut found = Vec::new(alloc);
    for id in 0..marks.len() {
        push_if(&mut found, id, marks[id])?;
    }
    Ok(found)
}

/// Whether the id is kept: there is something at the start, and no step touches it.
fn is_kept_id(marks: &[bool], slots: &[Option<Node>], id: usize) -> bool
    requires marked { id < length marks.now }
    requires there { id < length slots.now }
    ensures { result ≡ is_in_every_state marks.now slots.now id }
{
    !marks[id] && slots[id].is_some()
}

/// The kept ids, ascending: there is something at the start, and no step touches it.
pub fn kept_of(
    alloc: Global,
    marks: &[bool],
    slots: &[Option<Node>],
) -> Result<Vec<u32>, AllocError>
    requires few { length slots.now < 2 ^ 20 }
    requires long { length marks.now ≡ length slots.now }
    ensures { IfOk result
        (λ found. found.items
        ≡ numbers_that_pass (is_in_every_state marks.now slots.now) (length slots.now)) }
{
    let mut found = Vec::new(alloc);
    for id in 0..slots.len() {
        push_if(&mut found, id, is_kept_id(marks, slots, id))?;
    }
    Ok(found)
}

/// The count, and one more if `passes` is true.
fn count_if(count: u32, passes: bool) -> u32
    requires { count < 2 ^ 20 }
    ensures { result ≡ count + cond passes 1 0 }
{
    if passes { count + 1 } else { count }
}

/// For each id, how many of the kept ids are lower.
pub fn kept_below(
    alloc: Global,
    marks: &[bool],
    slots: &[Option<Node>],
) -> Result<Vec<u32>, AllocError>
    requires few { length slots.now < 2 ^ 20 }
    requires long { length marks.now ≡ length slots.now }
    ensures long { IfOk result (λ counts. length counts.items ≡ length slots.now) }
    ensures each { IfOk result
        (λ counts. (id : ℕ) → id < length slots.now
        → kept_at counts.items id
        ≡ length (numbers_that_pass (is_in_every_state marks.now slots.now) id)) }
{
    let mut counts = Vec::new(alloc);
    let mut count = 0u32;
    for id in 0..slots.len() {
        counts.push(count)?;
        count = count_if(count, is_kept_id(marks, slots, id));
    }
    Ok(counts)
}

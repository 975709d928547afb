//! What the micro-operations of a scene want: each wants earlier ones without which nothing shows
//! what it does. What changes a file wants what makes the file, if that is its only entry; a write
//! wants the first change that gives the file a size above the write's offset.
ghost use Rattle.std.specs.Prelude.{◌≡◌, ◌⊎◌, ◌<◌, ◌≤◌, ◌+◌, ◌^◌, ℕ, true, length, Some, IfOk};
ghost use Rattle.std.specs.Prelude.{IfSome};
ghost use Rattle.cs_apm.specs.Atlases.{content_before};
ghost use Rattle.cs_apm.specs.States.{start_state};
ghost use Rattle.cs_plan.specs.Scenes.{micros_of};
ghost use Rattle.cs_same_states.specs.Parts.{AreParts};
ghost use Rattle.cs_sets.specs.Bits.{has_place};
ghost use Rattle.cs_sets.specs.Rows.{bit_in};
ghost use Rattle.cs_different.specs.Wants.{IsGrower, IsMaker, Wants, WantsGrower, WantsMaker};

use crate::searching::{first_grower, first_maker, is_in_slot, is_linked, is_made_twice};
use cs_micro::MicroOp;
use cs_names::laws::know;
use cs_names::limits::MICRO_OPERATIONS;
use cs_plan::Scene;
use cs_same_states::starts::start_bytes;
use cs_same_states::{Parts, changed_file};
use cs_sets::Row;
use std::alloc::{AllocError, Global};

/// The place of the micro-operation that makes the file, if nothing else gives the file an entry:
/// none holds it at the start, and no micro-operation links it. None in any other case.
fn maker_of(scene: &Scene, parts: &Parts, file: u32) -> Option<usize>
    requires { AreParts scene.now.trace parts.now }
    ensures { IfSome result
        (IsMaker (start_state scene.now.trace).entries (micros_of scene.now).ops file) }
{
    let ops = scene.micros().ops();
    if is_linked(ops, file) {
        return None;
    }
    if is_in_slot(&parts.tables.slots, file) {
        return None;
    }
    let maker = first_maker(ops, file)?;
    if is_made_twice(ops, file, maker) {
        return None;
    }
    Some(maker)
}

/// The place of the first micro-operation that gives the file a size above the offset. None if none
/// does, or if its size before any change is above it already.
fn grower_of(scene: &Scene, parts: &Parts, file: u32, offset: u64) -> Option<usize>
    requires { AreParts scene.now.trace parts.now }
    ensures { IfSome result
        (IsGrower (content_before scene.now.trace (micros_of scene.now).ops file).size
        (micros_of scene.now).ops file offset) }
{
    let ops = scene.micros().ops();
    let size = start_bytes(scene.trace(), ops, &parts.tables, file as usize).len() as u64;
    if offset < size {
        return None;
    }
    first_grower(ops, file, offset)
}

/// The place of what makes the file that the micro-operation at `place` changes, as `maker_of`
/// finds it. None if it changes no file.
fn maker_wanted(scene: &Scene, parts: &Parts, place: usize) -> Option<usize>
    requires parts { AreParts scene.now.trace parts.now }
    requires inside { place < length (micros_of scene.now).ops }
    ensures { IfSome result (λ z. WantsMaker scene.now z place) }
{
    let ops = scene.micros().ops();
    let file = changed_file(&ops[place])?;
    maker_of(scene, parts, file)
}

/// The place of what first gives the file a size above the offset at which the micro-operation at
/// `place` writes, as `grower_of` finds it. None if it isn't a write.
fn grower_wanted(scene: &Scene, parts: &Parts, place: usize) -> Option<usize>
    requires parts { AreParts scene.now.trace parts.now }
    requires inside { place < length (micros_of scene.now).ops }
    ensures { IfSome result (λ z. WantsGrower scene.now z place) }
{
    let ops = scene.micros().ops();
    match &ops[place] {
        MicroOp::WriteBlock {
            file,
            start,
            at,
            ..
        } => {
            let offset = start.checked_add(*at)?;
            grower_of(scene, parts, *file, offset)
        }
        _ => None,
    }
}

/// A row of those of the two places that are there and before `place`.
fn row_of(first: Option<usize>, second: Option<usize>, place: usize) -> Row
    requires { place ≤ MICRO_OPERATIONS }
    ensures { (z : ℕ) → has_place result z ≡ true
        → (z < place) × ((first ≡ Some z) ⊎ (second ≡ Some z)) }
{
    let mut row = Row::empty();
    if let Some(wanted) = first {
        if wanted < place {
            row.set(wanted);
        }
    }
    if let Some(wanted) = second {
        if wanted < place {
            row.set(wanted);
        }
    }
    row
}

/// A row of the places that the micro-operation at `place` wants: at most two, all before it.
fn wanted_by(scene: &Scene, parts: &Parts, place: usize) -> Row
    requires parts { AreParts scene.now.trace parts.now }
    requires inside { place < length (micros_of scene.now).ops }
    requires few { length (micros_of scene.now).ops ≤ MICRO_OPERATIONS }
    ensures { (z : ℕ) → has_place result z ≡ true → Wants scene.now z place }
{
    let maker = maker_wanted(scene, parts, place);
    let grower = grower_wanted(scene, parts, place);
    row_of(maker, grower, place)
}

/// For each micro-operation of the scene, a row of the places that it wants. That none is missing
/// isn't proved: a missing one only costs time. `parts` are those of the scene's trace.
pub fn wants_of(alloc: Global, scene: &Scene, parts: &Parts) -> Result<Vec<Row>, AllocError>
    requires { AreParts scene.now.trace parts.now }
    ensures long { IfOk result (λ wanted. length wanted.items ≡ length (micros_of scene.now).ops) }
    ensures wants { IfOk result (λ wanted. (z k : ℕ) → bit_in wanted.items z k ≡ true
        → Wants scene.now z k) }
{
    let count = scene.micros().ops().len();
    know(scene.micros().ops());
    let mut wanted = Vec::new(alloc);
    for place in 0..count {
        wanted.push(wanted_by(scene, parts, place))?;
    }
    Ok(wanted)
}

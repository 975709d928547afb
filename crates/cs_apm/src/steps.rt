//! What each micro-operation does to the slots.
ghost use Rattle.std.specs.Prelude.{◌≤◌, ◌^◌, length, IfOk};
ghost use Rattle.cs_apm.specs.Making.{HasAllTouched, HasTouched};
ghost use Rattle.cs_apm.specs.Slots.{AreAscending, AreSteps, IsStep};

use crate::places::place_of_entry;
use crate::slot::Step;
use cs_entries::{Entry, Node};
use cs_micro::MicroOp;
use std::alloc::{AllocError, Global};

/// The step of the micro-operation: what it does to the slots of the entries that it touches. The
/// entries ascend and have these; their places fit in 32 bits.
fn step_of(alloc: Global, entries: &[Entry], op: &MicroOp) -> Result<Step, AllocError>
    requires short { length entries.now ≤ 2 ^ 32 }
    requires ascending { AreAscending entries.now }
    requires there { HasTouched entries.now op.now }
    ensures { IfOk result (IsStep entries.now op.now) }
{
    match op {
        MicroOp::CreateDirEntry { entry, node, .. } => {
            let place = place_of_entry(alloc, entries, entry)?;
            Ok(Step::Set(place as u32, Some(*node)))
        }
        MicroOp::DeleteDirEntry { entry, .. } => {
            let place = place_of_entry(alloc, entries, entry)?;
            Ok(Step::Set(place as u32, None))
        }
        MicroOp::MoveDirEntry { from, to, .. } => {
            let first = place_of_entry(alloc, entries, from)?;
            let second = place_of_entry(alloc, entries, to)?;
            Ok(Step::Move(first as u32, second as u32))
        }
        MicroOp::LinkDirEntry {
            entry,
            kind,
            file,
            ..
        } => {
            let place = place_of_entry(alloc, entries, entry)?;
            Ok(Step::Set(place as u32, Some(Node::File(*kind, *file))))
        }
        MicroOp::SetAttr { .. }
        | MicroOp::ChangeFileSize { .. }
        | MicroOp::WriteBlock { .. }
        | MicroOp::Say => Ok(Step::Other),
    }
}

/// The step of each micro-operation, in their order. The entries ascend and have every entry that
/// one of them touches; their places fit in 32 bits.
pub fn steps_of(alloc: Global, entries: &[Entry], ops: &[MicroOp]) -> Result<Vec<Step>, AllocError>
    requires short { length entries.now ≤ 2 ^ 32 }
    requires ascending { AreAscending entries.now }
    requires there { HasAllTouched entries.now ops.now (length ops.now) }
    ensures { IfOk result (λ steps. AreSteps entries.now ops.now steps.items) }
{
    let mut steps = Vec::new(alloc);
    for op in ops {
        steps.push(step_of(alloc, entries, op)?)?;
    }
    Ok(steps)
}

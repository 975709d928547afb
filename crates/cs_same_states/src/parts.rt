//! What is computed once from a trace, to find states that are equal without making their trees.

ghost use Rattle.std.specs.Prelude.{IfOk};
ghost use Rattle.cs_same_states.specs.Fixed.{AreFixed};

use crate::slots::files_in_slots;
use crate::touched::{Touched, clear_slots};
use cs_apm::tables::Tables;
use cs_micro::{MicroFault, break_up};
use cs_names::laws::know;
use cs_plan::Scene;
use std::alloc::{AllocError, Global};

/// What is computed once from a trace, to compare its states. Nothing changes it afterwards.
/// Functions that take parts ask in `requires` that they are those of the trace, as `Parts::of`
/// returns them.
#[derive(Drop)]
pub struct Parts {
    /// The tables of the trace.
    pub tables: Tables,
    /// The slots that some step changes.
    pub touched: Touched,
    /// For each file, by its number, whether it is at the start in a slot that no step changes.
    pub in_unchanged_slot: Vec<bool>,
}

/// For each file, by its number, whether it is at the start in a slot whose id is not one of `ids`.
fn files_in_unchanged_slots(
    alloc: Global,
    tables: &Tables,
    ids: &[u32],
) -> Result<Vec<bool>, AllocError>
    ensures { IfOk result (λ fixed. AreFixed tables.now ids.now fixed.items) }
{
    let mut slots = Vec::from_slice(alloc, &tables.slots)?;
    clear_slots(&mut slots, ids);
    files_in_slots(alloc, &slots, tables.owners.len())
}

impl Parts {
    ghost use Rattle.std.specs.Prelude.{IfOk};
    ghost use Rattle.cs_same_states.specs.Parts.{AreParts};

    /// The parts of the scene's trace. The trace is broken up again for them.
    pub fn of(alloc: Global, scene: &Scene) -> Result<Parts, AllocError>
        ensures { IfOk result (AreParts scene.now.trace) }
    {
        // By the contract of `ops`, the trace doesn't have too many micro-operations.
        know(scene.micros().ops());
        // Broken up again, since the contract of `break_up` says that they are legal.
        let micros = match break_up(alloc, scene.trace()) {
            Ok(micros) => micros,
            Err(MicroFault::Memory) => return Err(AllocError),
            Err(MicroFault::TooMany) => unreachable!(),
        };
        let tables = Tables::of(alloc, scene.trace(), &micros)?;
        // By the contract of `ops`, they are few enough that the slots can be numbered by 32 bits.
        know(micros.ops());
        let touched = Touched::of(alloc, &tables.slots, &tables.steps)?;
        let in_unchanged_slot = files_in_unchanged_slots(alloc, &tables, &touched.ids)?;
        Ok(Parts {
            tables,
            touched,
            in_unchanged_slot,
        })
    }
}

//! The state of an allowed set as a plain store, built from the tables of its trace.
ghost use Rattle.std.specs.Prelude.{◌≡◌, ◌<◌, length, map, fold, IfOk};
ghost use Rattle.std.specs.List.{All};
ghost use Rattle.cs_tree_model.specs.Tree.{IsTree};
ghost use Rattle.cs_micro.specs.Micros.{AreLegalFromStart, micros_in};
ghost use Rattle.cs_apm.specs.Atlases.{IsAtlas, atlas_in};
ghost use Rattle.cs_apm.specs.Orders.{needs_of};
ghost use Rattle.cs_sets.specs.Sets.{IsAllowed};
ghost use Rattle.cs_apm.specs.Slots.{FitsIn, slots_after, step_at};
ghost use Rattle.cs_apm.specs.States.{crash_state_of};

use crate::making::store_of;
use crate::slot::make_steps;
use crate::tables::Tables;
use cs_entries::Node;
use cs_micro::Micros;
use cs_trace::Trace;
use cs_tree::PlainTree;
use std::alloc::{AllocError, Global};

/// What the slots hold, in the order of `tables.entries`, after the steps of the members of a set.
/// The members are at these places. The tables aren't changed.
pub fn slots_of_set(
    alloc: Global,
    tables: &Tables,
    places: &[u32],
) -> Result<Vec<Option<Node>>, AllocError>
    requires fit { All (FitsIn (length tables.now.slots.items)) tables.now.steps.items }
    requires inside { All (λ place. place < length tables.now.steps.items) places.now }
    ensures { IfOk result (λ left. left.items
        ≡ fold slots_after tables.now.slots.items
        (map (step_at tables.now.steps.items) places.now)) }
{
    let mut left = Vec::from_slice(alloc, &tables.slots)?;
    make_steps(&mut left, &tables.steps, places);
    Ok(left)
}

/// The state of an allowed set as a plain store. The members are at these places, and the tables
/// are those of the trace and its micro-operations. First the members' steps are made in a copy of
/// the slots, then the store is made of what these hold.
pub fn state_of(
    alloc: Global,
    trace: &Trace,
    micros: &Micros,
    tables: &Tables,
    places: &[u32],
) -> Result<PlainTree, AllocError>
    requires atlas { IsAtlas trace.now micros.now (atlas_in tables.now) }
    requires allowed { IsAllowed (needs_of micros.now) (length micros.now.ops) places.now }
    ensures state { IfOk result (λ tree. tree ≡ crash_state_of trace.now micros.now places.now) }
    ensures tree { IfOk result IsTree }
{
    let slots = slots_of_set(alloc, tables, places)?;
    store_of(alloc, trace, micros.ops(), tables, places, &slots)
}

/// The state of one allowed set as a plain store, which shares nothing. The micro-operations must
/// be those that `break_up` returns for the trace, and the members are at these places. It computes
/// all tables of the trace each time: for many states, `cs_state` computes them once and shares
/// what is unchanged. Tests and benchmarks call it, no command does.
pub fn build(
    alloc: Global,
    micros: &Micros,
    trace: &Trace,
    places: &[u32],
) -> Result<PlainTree, AllocError>
    requires broken { micros.now ≡ micros_in trace.now }
    requires legal { AreLegalFromStart trace.now micros.now }
    requires allowed { IsAllowed (needs_of micros.now) (length micros.now.ops) places.now }
    ensures state { IfOk result (λ tree. tree ≡ crash_state_of trace.now micros.now places.now) }
    ensures tree { IfOk result IsTree }
{
    let tables = Tables::of(alloc, trace, micros)?;
    state_of(alloc, trace, micros, &tables, places)
}

//! What is computed once from a trace, so that its states can share it.
ghost use Rattle.std.specs.Prelude.{◌≡◌, ◌≤◌, ℕ, Some, length, slice_get, IfOk};
ghost use Rattle.cs_apm.specs.Atlases.{IsAtlas, atlas_in};
ghost use Rattle.cs_paths.specs.PathOrders.{ArePlaces};
ghost use Rattle.cs_paths.specs.declared.path_order.PathOrder.{PathOrder as TheOrder};
ghost use Rattle.cs_state.specs.Shares.{AreForOrders, AreIdsOf};

use crate::kept_ids::KeptIds;
use crate::marks::marks_of;
use cs_apm::tables::Tables;
use cs_micro::Micros;
use cs_names::laws::know;
use cs_paths::{PathOrder, PathOrders};
use cs_trace::Trace;
use std::alloc::{AllocError, Global};

/// What all states of a trace share in addition to its tables.
#[derive(Debug, Drop)]
pub struct Shares {
    /// The moves of directories, and the orders of paths. The members of a state are the first so
    /// many of the moves (by P12), and it has the order for that number.
    pub paths: PathOrders,
    /// For each of these orders, the kept and the touched ids.
    pub ids: Vec<KeptIds>,
}

/// The kept and the touched ids of each of the orders. `marks` has, for each entry by its place,
/// whether some step touches it.
fn ids_of(
    alloc: Global,
    tables: &Tables,
    marks: &[bool],
    orders: &[PathOrder],
) -> Result<Vec<KeptIds>, AllocError>
    requires shared { AreForOrders tables.now marks.now }
    requires places { (t : ℕ) (o : TheOrder) → slice_get orders.now t ≡ Some o
        → ArePlaces (length tables.now.entries.items) o.places.items }
    ensures { IfOk result (λ ids. AreIdsOf tables.now orders.now ids.items) }
{
    let mut ids = Vec::new(alloc);
    for order in orders {
        ids.push(KeptIds::of(alloc, tables, marks, &order.places)?)?;
    }
    Ok(ids)
}

impl Shares {
    ghost use Rattle.cs_names.specs.declared.limits.TheConstants.{MICRO_OPERATIONS};
    ghost use Rattle.cs_state.specs.Shares.{IsShares};

    /// What the states of a trace share, computed from the trace, its micro-operations and its
    /// tables.
    pub fn of(
        alloc: Global,
        trace: &Trace,
        micros: &Micros,
        tables: &Tables,
    ) -> Result<Shares, AllocError>
        requires atlas { IsAtlas trace.now micros.now (atlas_in tables.now) }
        requires few { length micros.now.ops ≤ MICRO_OPERATIONS }
        ensures { IfOk result (IsShares micros.now.ops tables.now) }
    {
        // By the contract of `records`, they are few, so that the entries can be counted.
        know(trace.records());
        let marks = marks_of(alloc, &tables.steps, tables.slots.len())?;
        let paths = PathOrders::of(alloc, trace, micros, tables)?;
        let ids = ids_of(alloc, tables, &marks, &paths.orders)?;
        Ok(Shares { paths, ids })
    }
}

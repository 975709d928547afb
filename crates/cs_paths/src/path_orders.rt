//! The orders of paths of a trace: one for each number of moves of directories that a state has.
ghost use Rattle.std.specs.Prelude.{◌≡◌, ◌+◌, ◌<◌, ◌^◌, ℕ, Some, length, slice_get, IfOk};
ghost use Rattle.std.specs.Prelude.{IfSome};
ghost use Rattle.cs_apm.specs.Atlases.{IsAtlas, atlas_in};
ghost use Rattle.cs_apm.specs.Rules.{op_at};
ghost use Rattle.cs_paths.specs.declared.path_order.PathOrder.{PathOrder as TheOrder};
ghost use Rattle.cs_paths.specs.PathOrders.{ArePositions, IsPathOrder};
ghost use Rattle.cs_paths.specs.PathOrders.{directory_moves, homes_of, moved_directory};
ghost use Rattle.cs_paths.specs.PathOrders.{positions_of};

use crate::moves::{directory_moves, homes_of, move_at};
use crate::path_order::PathOrder;
use cs_apm::tables::Tables;
use cs_micro::{MicroOp, Micros};
use cs_names::laws::know;
use cs_trace::Trace;
use std::alloc::{AllocError, Global};

/// The moves of directories of a trace, and the orders of paths before and after each of them.
#[derive(Debug, Drop)]
pub struct PathOrders {
    /// The places of the micro-operations that move a directory, ascending. A state has the first
    /// so many of them.
    pub moves: Vec<u32>,
    /// The order of paths in the states with 0 of these moves, with 1, and so on up to all: one
    /// more than there are moves.
    pub orders: Vec<PathOrder>,
}

/// The order of paths before the first of the moves of directories, and after each of them.
/// `homes` has the positions of the directories before the first.
fn orders_of(
    alloc: Global,
    tables: &Tables,
    ops: &[MicroOp],
    moves: &[u32],
    homes: Vec<u32>,
) -> Result<Vec<PathOrder>, AllocError>
    requires few { length tables.now.entries.items < 2 ^ 20 }
    requires moves { moves.now ≡ directory_moves ops.now }
    requires steps { length tables.now.steps.items ≡ length ops.now }
    requires homes { homes.items ≡ homes_of tables.now }
    requires inside { (t : ℕ) → ArePositions (length tables.now.entries.items)
        (length tables.now.directories.items) (positions_of ops.now tables.now t) }
    requires known { (k : ℕ) → k < length ops.now → IfSome (moved_directory (op_at ops.now k))
        (λ d. d < length tables.now.directories.items) }
    ensures long { IfOk result (λ orders. length orders.items ≡ length moves.now + 1) }
    ensures each { IfOk result (λ orders. (t : ℕ) (o : TheOrder)
        → slice_get orders.items t ≡ Some o
        → IsPathOrder tables.now.entries.items (length tables.now.directories.items)
        (positions_of ops.now tables.now t) o) }
{
    let mut orders = Vec::new(alloc);
    let mut positions = homes;
    for place in moves {
        let copy = Vec::from_slice(alloc, &positions)?;
        orders.push(PathOrder::of(alloc, &tables.entries, copy)?)?;
        move_at(&mut positions, ops, &tables.steps, *place);
    }
    orders.push(PathOrder::of(alloc, &tables.entries, positions)?)?;
    Ok(orders)
}

impl PathOrders {
    ghost use Rattle.cs_paths.specs.PathOrders.{ArePathOrders};

    /// The orders of paths of a trace, from its micro-operations and its tables. Each order has two
    /// numbers for each entry, so many moves take much memory.
    pub fn of(
        alloc: Global,
        trace: &Trace,
        micros: &Micros,
        tables: &Tables,
    ) -> Result<PathOrders, AllocError>
        requires { IsAtlas trace.now micros.now (atlas_in tables.now) }
        ensures { IfOk result (ArePathOrders micros.now.ops tables.now) }
    {
        // By the contract of `records`, they are few, so that the entries can be counted.
        know(trace.records());
        let ops = micros.ops();
        let count = tables.directories.len();
        let moves = directory_moves(alloc, ops)?;
        let homes = homes_of(alloc, count, &tables.slots, &tables.steps)?;
        let orders = orders_of(alloc, tables, ops, &moves, homes)?;
        Ok(PathOrders { moves, orders })
    }
}

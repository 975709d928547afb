//! The order of a trace's micro-operations: which needs which, by their places. Which sets of
//! places an order allows is in cs_sets.
ghost use Rattle.std.specs.Prelude.{◌≡◌, IfOk};
ghost use Rattle.cs_apm.specs.Orders.{order_by, order_of};

use crate::rows::rows_of;
use cs_micro::Micros;
use cs_sets::Order;
use cs_trace::Profile;
use std::alloc::{AllocError, Global};

/// The order of a trace's micro-operations, on a file system of the trace's own profile: which
/// others each needs to be on the disk. All pairs are judged here, so a question to the order only
/// looks up a bit.
pub fn order_of(alloc: Global, micros: &Micros) -> Result<Order, AllocError>
    ensures { IfOk result (λ order. order ≡ order_of micros.now) }
{
    order_by(alloc, micros, micros.version().profile())
}

/// The order of a trace's micro-operations, on a file system of this profile, which needn't be the
/// trace's. A set that it allows may still not be left by such a file system, which keeps the
/// halves of a rename together: ask `may_be_left`.
pub fn order_by(alloc: Global, micros: &Micros, profile: Profile) -> Result<Order, AllocError>
    ensures { IfOk result (λ order. order ≡ order_by micros.now profile) }
{
    let rows = rows_of(
        alloc,
        micros.ops(),
        micros.syncs(),
        micros.version(),
        profile,
    )?;
    Order::of(alloc, rows)
}

//! On file systems of which profiles a crash may leave a set of micro-operations.
ghost use Rattle.std.specs.Prelude.{◌≡◌, ◌↔◌, ◌+◌, ◌<◌, ℕ, IsTrue, length, slice_index};
ghost use Rattle.cs_apm.specs.Orders.{order_by};
ghost use Rattle.cs_apm.specs.Profiles.{HasBothHalves, MayBeLeft};

use crate::rules::{is_first_half, op_at};
use cs_micro::{MicroOp, Micros};
use cs_sets::Order;
use cs_trace::Profile;

/// Whether these places have, right after the one at `index`, the next higher number. False at the
/// last index.
fn is_followed(places: &[u32], index: usize) -> bool
    requires { index < length places.now }
    ensures { IsTrue result ↔ ((index + 1 < length places.now)
        × (slice_index places.now (index + 1) ≡ slice_index places.now index + 1)) }
{
    index + 1 < places.len() && places[index + 1] as usize == places[index] as usize + 1
}

/// Whether the set, which is given by its places in ascending order, has the second half of each
/// rename of which it has the first. The second half is the next micro-operation. True if it has no
/// first half.
fn has_both_halves(ops: &[MicroOp], places: &[u32]) -> bool
    requires ascending { (a b : ℕ) → a < b → b < length places.now
        → slice_index places.now a < slice_index places.now b }
    requires inside { (a : ℕ) → a < length places.now
        → slice_index places.now a < length ops.now }
    ensures { IsTrue result ↔ HasBothHalves ops.now places.now }
{
    for index in 0..places.len() {
        if is_first_half(op_at(ops, places[index] as usize)) && !is_followed(places, index) {
            return false;
        }
    }
    true
}

/// Whether a crash may leave exactly the micro-operations at these places on a file system of the
/// profile, whose order (as of `order_by`) this is. The order must allow the set; and only a file
/// system that keeps no order may leave the first half of a rename without the second. False also
/// for places that don't ascend or aren't in range.
pub fn may_be_left(micros: &Micros, profile: Profile, order: &Order, places: &[u32]) -> bool
    requires { order.now ≡ order_by micros.now profile }
    ensures { IsTrue result ↔ MayBeLeft micros.now profile places.now }
{
    if !order.is_allowed(places) {
        return false;
    }
    match profile {
        Profile::Blocks => true,
        Profile::Ordered => has_both_halves(micros.ops(), places),
        Profile::Journal => has_both_halves(micros.ops(), places),
    }
}

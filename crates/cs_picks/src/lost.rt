//! The family Lost: an operation reached the disk, with all that it needs and nothing else.
ghost use Rattle.std.specs.Prelude.{◌≡◌, ◌<◌, ◌≤◌, length, IfErr, IfOk, OnOk};
ghost use Rattle.std.specs.Io.KnownBytes.{Appends};
ghost use Rattle.cs_sets.specs.Orders.{needs_in};
ghost use Rattle.cs_plan.specs.Plans.{IsAllowedIn};
ghost use Rattle.cs_picks.specs.Families.{is_needed, least_with, lost_sets};
ghost use Rattle.cs_every.specs.Faults.{IsOutside};
ghost use Rattle.cs_every.specs.Texts.{picks_text};

use cs_every::{EveryFault, write_pick};
use cs_names::laws::know;
use cs_sets::Order;
use std::alloc::{AllocError, Global};
use std::io::Write;

/// Whether `needed` is `place`, or a place that the operation at `place` needs, directly or through
/// others. Both must be places of the order.
fn is_needed(order: &Order, place: usize, needed: usize) -> bool
    requires first { place < length order.now }
    requires second { needed < length order.now }
    ensures { result ≡ is_needed (needs_in order.now) place needed }
{
    needed == place || order.needs_by_chain(needed, place)
}

/// The places of all that the operation at the place needs, directly or through others, ascending,
/// and last the place itself: the least set with the operation that a crash may leave. The error is
/// out of memory.
pub fn least_with(alloc: Global, order: &Order, place: usize) -> Result<Vec<u32>, AllocError>
    requires { place < length order.now }
    ensures value { IfOk result (λ set. set.items ≡ least_with (needs_in order.now) place) }
    ensures allowed { IfOk result (λ set. IsAllowedIn order.now set.items) }
{
    let mut set = Vec::new(alloc);
    // that an order is short, and that each operation needs only earlier ones
    know(order.len());
    for needed in 0..place + 1 {
        if is_needed(order, place, needed) {
            set.push(needed as u32)?;
        }
    }
    Ok(set)
}

/// Writes the family: the least set of each operation, in the order of their places. After a fault
/// some of the lines may be written.
pub fn write_lost<W: Write>(alloc: Global, order: &Order, out: &mut W) -> Result<(), EveryFault>
    ensures fault { IfErr result IsOutside }
    ensures sets { OnOk result
        (Appends (W.contents out.old) (W.contents out.new) (picks_text (lost_sets order.now))) }
{
    for place in 0..order.len() {
        let set = least_with(alloc, order, place)?;
        write_pick(&set, out)?;
    }
    Ok(())
}

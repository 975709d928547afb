//! Why a pick is not allowed, and why a plan is too large.
ghost use Rattle.std.specs.Prelude.{◌<◌, length};

use cs_apm::Order;
use std::alloc::{AllocError, Global};

/// The place of the first operation that the one at `place` needs, directly or through others, and
/// that isn't in `places`. None if `places` has all that it needs. `place` must be one of the
/// order.
fn missing_need(order: &Order, places: &[u32], place: usize) -> Option<usize>
    requires { place < length order.now }
{
    for need in 0..place {
        if order.needs_by_chain(need, place)
            && !places.iter().any(|other| *other as usize == need)
        {
            return Some(need);
        }
    }
    None
}

/// Why the pick of that number is not allowed, by the first of its places that is at fault. None if
/// it is allowed. Picks count from 0, as in the fault. The error is out of memory.
pub fn reason_of_pick(
    alloc: Global,
    order: &Order,
    pick: u32,
    places: &[u32],
) -> Result<Option<String>, AllocError> {
    let mut next = 0u64;
    let count = order.len();
    for place in places {
        let place = *place;
        if u64::from(place) < next {
            let text = format!(in alloc; "pick {pick}: its operations do not ascend")?;
            return Ok(Some(text));
        }
        if place as usize >= count {
            let text = format!(in alloc;
                "pick {pick}: there are {count} operations, and no {place}"
            )?;
            return Ok(Some(text));
        }
        if let Some(need) = missing_need(order, places, place as usize) {
            let text = format!(in alloc; "pick {pick}: operation {place} needs operation {need}")?;
            return Ok(Some(text));
        }
        next = u64::from(place) + 1;
    }
    Ok(None)
}

/// How many holes end at the place `last`: one for each earlier place that the operation at `last`
/// doesn't need, directly or through others. `last` must be a place of the order.
fn count_holes_at(order: &Order, last: usize) -> u64
    requires { last < length order.now }
{
    let mut count = 0u64;
    for missing in 0..last {
        if !order.needs_by_chain(missing, last) {
            // at most `last`
            count = count.saturating_add(1);
        }
    }
    count
}

/// How many holes the order allows, each a prefix without one place that its last operation doesn't
/// need. cs_plan has a function of this name, which is private there: change both.
pub fn count_holes(order: &Order) -> u64 {
    let mut count = 0u64;
    for last in 0..order.len() {
        // an order has at most MICRO_OPERATIONS places, so a u64 counts their pairs
        count = count.saturating_add(count_holes_at(order, last));
    }
    count
}

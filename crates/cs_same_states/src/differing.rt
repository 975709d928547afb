//! Which micro-operations are in only one of two sets, by their places.
ghost use Rattle.std.specs.Prelude.{IfOk};
ghost use Rattle.cs_same_states.specs.Differences.{AreDiffering};

use std::alloc::{AllocError, Global};

/// The places that are in only one of two sets, ascending if both lists of places are. If one list
/// isn't, a place of both sets may be among them, but no place of only one set is left out.
pub fn places_in_one(alloc: Global, places: &[u32], others: &[u32]) -> Result<Vec<u32>, AllocError>
    ensures { IfOk result (λ found. AreDiffering places.now others.now found.items) }
{
    let mut found = Vec::new(alloc);
    let mut here = 0;
    let mut there = 0;
    while here < places.len() && there < others.len() {
        let place = places[here];
        let other = others[there];
        if place < other {
            found.push(place)?;
            here += 1;
        } else if other < place {
            found.push(other)?;
            there += 1;
        } else {
            here += 1;
            there += 1;
        }
    }
    found.extend_from_slice(&places[here..])?;
    found.extend_from_slice(&others[there..])?;
    Ok(found)
}

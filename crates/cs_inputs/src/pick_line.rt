//! A line of a picks file.
ghost use Rattle.std.specs.Prelude.{◌≡◌, IfOk};
ghost use Rattle.serde_json.specs.View.{items_view, view};
ghost use Rattle.cs_inputs.specs.PickLines.{pick_in, place_of, places_in, places_of};

use cs_names::as_utf8;
use cs_plan::Places;
use serde_json::Value;
use std::alloc::{AllocError, Global};

/// A JSON value as a place; None unless it is a whole number of 32 bits, without sign, point or
/// exponent.
fn as_place(value: &Value) -> Option<u32>
    ensures { result ≡ place_of (view value.now) }
{
    let number = value.as_u64()?;
    u32::try_from(number).ok()
}

/// JSON values as places; None unless each of them is one. No values give an empty set. The only
/// error is out of memory.
fn as_places(alloc: Global, values: &[Value]) -> Result<Option<Places>, AllocError>
    ensures { IfOk result (λ places. places ≡ places_of (items_view values.now)) }
{
    let mut places = Vec::new(alloc);
    for value in values {
        let Some(place) = as_place(value) else {
            return Ok(None);
        };
        places.push(place)?;
    }
    Ok(Some(Places::of(places)))
}

/// The places in a JSON value; None unless it is an array of places. The only error is out of
/// memory.
fn places_in(alloc: Global, value: &Value) -> Result<Option<Places>, AllocError>
    ensures { IfOk result (λ places. places ≡ places_in (view value.now)) }
{
    match value.as_array() {
        Some(values) => as_places(alloc, values),
        None => Ok(None),
    }
}

/// The places in a line; None unless it is a JSON array of places. The only error is out of memory.
#[tactic(auto, unfolding(crate::specs::PickLines::pick_in))]
pub(crate) fn pick_in(alloc: Global, line: &[u8]) -> Result<Option<Places>, AllocError>
    ensures { IfOk result (λ pick. pick ≡ pick_in line.now) }
{
    let Some(text) = as_utf8(line) else {
        return Ok(None);
    };
    match Value::from_str(alloc, text) {
        Ok(value) => places_in(alloc, &value),
        Err(error) => {
            if error.is_memory() {
                return Err(AllocError);
            }
            Ok(None)
        }
    }
}

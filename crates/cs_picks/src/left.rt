//! What is left of a prefix if a crash loses a file's changes: the prefix without these, and
//! without all that needs one of them. `losses` says which changes may be lost.
ghost use Rattle.std.specs.Prelude.{◌≡◌, ◌<◌, ◌≤◌, length, IfOk};
ghost use Rattle.std.specs.List.{All};
ghost use Rattle.cs_sets.specs.Orders.{needs_in};
ghost use Rattle.cs_plan.specs.Plans.{IsAllowedIn};
ghost use Rattle.cs_picks.specs.Left.{adds_nothing, is_given, left_of, loses_at, loses_one_more};
ghost use Rattle.cs_picks.specs.Left.{lost_places, stays};

use crate::changes::is_same_file;
use cs_names::laws::know;
use cs_names::limits::MICRO_OPERATIONS;
use cs_plan::members::is_kept;
use cs_sets::Order;
use std::alloc::{AllocError, Global};

/// Whether a change of the file is lost at the place. `losses` has for each place the file whose
/// change there is lost, None if none is.
fn loses_at(losses: &[Option<u32>], file: u32, place: usize) -> bool
    requires { place < length losses.now }
    ensures { result ≡ loses_at losses.now file place }
{
    is_same_file(losses[place], file)
}

/// The places, ascending, at which changes of the file are lost. `losses` has for each place the
/// file whose change there is lost. Empty if the file loses none. The error is out of memory.
pub fn lost_places(alloc: Global, losses: &[Option<u32>], file: u32) -> Result<Vec<u32>, AllocError>
    requires { length losses.now ≤ MICRO_OPERATIONS }
    ensures value { IfOk result (λ lost. lost.items ≡ lost_places losses.now file) }
    ensures inside { IfOk result (λ lost. All (λ place. place < length losses.now) lost.items) }
{
    let mut lost = Vec::new(alloc);
    for place in 0..losses.len() {
        if loses_at(losses, file, place) {
            lost.push(place as u32)?;
        }
    }
    Ok(lost)
}

/// Whether the operation at the place stays if those at the places `lost` are missing: it is none
/// of them, and needs none of them, directly or through others. True if `lost` is empty. All these
/// places must be of the order.
fn stays(order: &Order, lost: &[u32], place: usize) -> bool
    requires there { place < length order.now }
    requires inside { All (λ missing. missing < length order.now) lost.now }
    ensures { result ≡ stays (needs_in order.now) lost.now place }
{
    for missing in lost {
        if !is_kept(order, *missing as usize, place) {
            return false;
        }
    }
    true
}

/// Whether the prefix of `end` places loses exactly what the prefix that is one place shorter
/// loses, and its own last place. `lost` is what it loses, `shorter` what the shorter one loses,
/// both ascending.
fn loses_one_more(shorter: &[u32], lost: &[u32], end: usize) -> bool
    ensures { result ≡ loses_one_more shorter.now lost.now end }
{
    let count = shorter.len();
    lost.len() == count + 1 && &lost[..count] == shorter && lost[count] as usize + 1 == end
}

/// Whether the prefix of `end` places leaves the same set as the prefix that is one place shorter:
/// its last place doesn't stay, and both prefixes lose the same of the places before it. `lost` and
/// `shorter` are as in `loses_one_more`. All places must be of the order, which has at least one.
fn adds_nothing(order: &Order, shorter: &[u32], lost: &[u32], end: usize) -> bool
    requires few { end ≤ length order.now }
    requires some { 0 < length order.now }
    requires inside { All (λ missing. missing < length order.now) lost.now }
    ensures { result ≡ adds_nothing (needs_in order.now) shorter.now lost.now end }
{
    // the prefix's last place; 0 if it has none
    if stays(order, lost, end.saturating_sub(1)) {
        return false;
    }
    lost == shorter || loses_one_more(shorter, lost, end)
}

/// Whether the family has a set for the prefix of `end` places: the prefix loses something, and the
/// prefix that is one place shorter doesn't leave the same set. `lost` and `shorter` are as in
/// `loses_one_more`. All places must be of the order.
pub fn is_given(order: &Order, shorter: &[u32], lost: &[u32], end: usize) -> bool
    requires few { end ≤ length order.now }
    requires inside { All (λ missing. missing < length order.now) lost.now }
    ensures { result ≡ is_given (needs_in order.now) shorter.now lost.now end }
{
    if lost.is_empty() {
        return false;
    }
    shorter.is_empty() || !adds_nothing(order, shorter, lost, end)
}

/// The places before `end`, ascending, without those in `lost` and without those whose operations
/// need one of these, directly or through others. Empty if none is left. The error is out of
/// memory.
pub fn left_of(
    alloc: Global,
    order: &Order,
    lost: &[u32],
    end: usize,
) -> Result<Vec<u32>, AllocError>
    requires few { end ≤ length order.now }
    requires inside { All (λ missing. missing < length order.now) lost.now }
    ensures value { IfOk result (λ left. left.items ≡ left_of (needs_in order.now) lost.now end) }
    ensures allowed { IfOk result (λ left. IsAllowedIn order.now left.items) }
{
    let mut left = Vec::new(alloc);
    // that an order is short, and that each operation needs only earlier ones
    know(order.len());
    for place in 0..end {
        if stays(order, lost, place) {
            left.push(place as u32)?;
        }
    }
    Ok(left)
}

//! What a state doesn't share with the others (its own entries): what is at the touched ids, those
//! of entries that some step changes, at which states may differ. The kept ids are those at which
//! every state has the same.
ghost use Rattle.std.specs.Prelude.{◌≡◌, ◌+◌, ◌<◌, ◌^◌, ◌++◌, ℕ, length, IfOk, OnOk};
ghost use Rattle.cs_apm.specs.Orders.{needs_of};
ghost use Rattle.cs_sets.specs.Sets.{IsAllowed};
ghost use Rattle.cs_state.specs.Numbers.{kept_at};
ghost use Rattle.cs_state.specs.Parts.{AreParts, IsState};
ghost use Rattle.cs_state.specs.Merging.{own_from, own_one};
ghost use Rattle.cs_paths.specs.PathOrders.{moves_kept, slots_by_path};
ghost use Rattle.std.specs.List.{All};

use crate::numbers::Own;
use crate::parts::Parts;
use cs_apm::state::slots_of_set;
use cs_entries::Node;
use cs_paths::path_order::slot_of_id;
use std::alloc::{AllocError, Global};

/// Appends what is in the slot of the touched id, with its number in the state; nothing if the slot
/// is empty. `before` is how many kept ids are before the id, and `own` has all own entries before
/// it. After an error nothing was appended.
fn push_own(own: &mut Vec<Own>, id: u32, before: u32, slot: Option<Node>) -> Result<(), AllocError>
    requires { before + length own.old.items < 2 ^ 32 }
    ensures { OnOk result
        (own.new.items ≡ own.old.items ++ own_one id before slot (length own.old.items)) }
{
    if slot.is_some() {
        let number = before + own.len() as u32;
        own.push(Own { id, number, slot })?;
    }
    Ok(())
}

/// What is at those touched ids at which there is something, with their numbers in the state, in
/// ascending order. `places` has the places of entries in the order of paths, `slots` what the
/// entry at each place holds, and `kept_below` how many kept ids are before each id.
fn touched_entries(
    alloc: Global,
    touched: &[u32],
    kept_below: &[u32],
    places: &[u32],
    slots: &[Option<Node>],
) -> Result<Vec<Own>, AllocError>
    requires there { (k : ℕ) → k < length touched.now
        → kept_at touched.now k < length places.now + 1 }
    requires counted { length kept_below.now ≡ length places.now + 1 }
    requires inside { All (λ place. place < length slots.now) places.now }
    requires small { (k : ℕ) → k < length touched.now
        → kept_at kept_below.now (kept_at touched.now k) + length touched.now < 2 ^ 32 }
    ensures { IfOk result (λ own. own.items
        ≡ own_from kept_below.now touched.now (slots_by_path places.now slots.now) 0) }
{
    let mut own = Vec::new(alloc);
    for id in touched {
        let slot = slot_of_id(places, slots, *id);
        push_own(&mut own, *id, kept_below[*id as usize], slot)?;
    }
    Ok(own)
}

/// The own entries of the state of an allowed set, whose members are at these places. The members'
/// steps are made in a copy of the slots; then what the slots of touched ids have is collected.
/// `moved` is how many of the trace's moves of directories are members.
pub fn own_of(
    alloc: Global,
    parts: &Parts,
    moved: usize,
    places: &[u32],
) -> Result<Vec<Own>, AllocError>
    requires parts { AreParts parts.now }
    requires allowed { IsAllowed (needs_of parts.now.micros) (length parts.now.micros.ops)
        places.now }
    requires moved { moved ≡ moves_kept parts.now.micros.ops places.now }
    ensures { IfOk result (λ own. IsState parts.now places.now moved own.items) }
{
    let ids = &parts.shares.ids[moved];
    let slots = slots_of_set(alloc, &parts.tables, places)?;
    let own = touched_entries(
        alloc,
        &ids.touched,
        &ids.kept_below,
        &parts.shares.paths.orders[moved].places,
        &slots,
    )?;
    // A copy has no spare room, which the pushes may have left: many states are kept.
    let own = Vec::from_slice(alloc, &own)?;
    Ok(own)
}

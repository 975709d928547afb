//! The members of a set, as a mark for each micro-operation.
ghost use Rattle.std.specs.Prelude.{◌≡◌, ◌<◌, ◌≤◌, ℕ, true, false, length, IfOk};
ghost use Rattle.std.specs.List.{All};
ghost use Rattle.cs_state.specs.Numbers.{kept_at};
ghost use Rattle.cs_state.specs.Shares.{mark_at};
ghost use Rattle.cs_state.specs.Steps.{members_in};

use std::alloc::{AllocError, Global};

/// A mark for each of `count` micro-operations: whether it is at one of these places, which must
/// ascend strictly and be below `count`.
pub fn members_of(alloc: Global, count: usize, places: &[u32]) -> Result<Vec<bool>, AllocError>
    requires ascending { (i j : ℕ) → i < j → j < length places.now
        → kept_at places.now i < kept_at places.now j }
    requires inside { All (λ place. place < count) places.now }
    ensures long { IfOk result (λ members. length members.items ≡ count) }
    ensures members { IfOk result (λ members. members_in members.items ≡ places.now) }
{
    let mut members = vec![in alloc; false; count]?;
    for place in places {
        members[*place as usize] = true;
    }
    Ok(members)
}

/// Whether the micro-operation at the place is a member; false if the place is out of range.
/// (`flag_at` of cs_same_states does the same.)
pub fn is_member(members: &[bool], place: u32) -> bool
    ensures { result ≡ mark_at members.now place }
{
    members.get(place as usize).copied().unwrap_or(false)
}

/// How many of these places are those of members. They are counted by a binary search, so in the
/// list the places of members must come before all others.
pub fn count_members(members: &[bool], places: &[u32]) -> usize
    requires { (i j : ℕ) → i < j → j < length places.now
        → mark_at members.now (kept_at places.now j) ≡ true
        → mark_at members.now (kept_at places.now i) ≡ true }
    ensures bound { result ≤ length places.now }
    ensures low { (k : ℕ) → k < result → mark_at members.now (kept_at places.now k) ≡ true }
    ensures high { (k : ℕ) → result ≤ k → k < length places.now
        → mark_at members.now (kept_at places.now k) ≡ false }
{
    places.partition_point(|place| is_member(members, *place))
}

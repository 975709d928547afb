//! The numbers of the files and directories of a state: how many it has before them in the order of
//! paths. They are computed from the kept ids, which states share, and the state's own entries:
//! both lists ascend, no id is in both, and together they have all that the state has.
ghost use Rattle.std.specs.Prelude.{◌≡◌, ◌+◌, ◌^◌, ◌<◌, ◌≤◌, ℕ, length, IfNone, IfSome};
ghost use Rattle.std.specs.List.Sorted.{IsNonDecreasingBy};
ghost use Rattle.cs_state.specs.Numbers.{own_in_place, count_with_key_below, kept_at, number_in};
ghost use Rattle.cs_state.specs.Numbers.{HasId, IsFound, IsMerge};
ghost use Rattle.std.specs.List.{All};
ghost use Rattle.cs_paths.specs.PathOrders.{slots_by_path};

use cs_entries::Node;
use cs_paths::path_order::slot_of_id;

/// A state's own entry: one that some step touches, and that holds something in this state.
#[derive(Clone, Copy, Debug)]
pub struct Own {
    /// The entry's id.
    pub id: u32,
    /// The number of what it holds: how many files and directories of the state come before it in
    /// the order of paths, the root too.
    pub number: u32,
    /// What it holds; never None.
    pub slot: Option<Node>,
}

/// The root, or an entry that holds something in a state.
#[derive(Clone, Copy, Debug)]
pub struct Found {
    /// Its id; 0 for the root.
    pub id: u32,
    /// What it holds; the root's directory for the root. Never None.
    pub slot: Option<Node>,
}

/// How many of the own entries have a number below `number`. The count must be at least `least` and
/// at most `most`; the binary search is between these two. Either may be past the list's end.
fn numbers_below(own: &[Own], least: usize, most: usize, number: u64) -> usize
    requires rising { IsNonDecreasingBy (λ (o : Own). o.number) own.now }
    requires least { (k : ℕ) → k < least → k < length own.now
        → (own_in_place own.now k).number < number }
    requires most { (k : ℕ) → most ≤ k → k < length own.now
        → number ≤ (own_in_place own.now k).number }
    ensures bound { result ≤ length own.now }
    ensures low { (k : ℕ) → k < result → (own_in_place own.now k).number < number }
    ensures high { (k : ℕ) → result ≤ k → k < length own.now
        → number ≤ (own_in_place own.now k).number }
{
    let end = own.len().min(most);
    let from = end.min(least);
    from + own[from..end].partition_point(|o| (o.number as u64) < number)
}

/// How many of the own entries have an id below the given id. The count must be at least `least`
/// and at most `most`; the binary search is between these two. Either may be past the list's end.
fn ids_below(own: &[Own], least: usize, most: usize, id: u32) -> usize
    requires rising { IsNonDecreasingBy (λ (o : Own). o.id) own.now }
    requires least { (k : ℕ) → k < least → k < length own.now → (own_in_place own.now k).id < id }
    requires most { (k : ℕ) → most ≤ k → k < length own.now → id ≤ (own_in_place own.now k).id }
    ensures bound { result ≤ length own.now }
    ensures low { (k : ℕ) → k < result → (own_in_place own.now k).id < id }
    ensures high { (k : ℕ) → result ≤ k → k < length own.now → id ≤ (own_in_place own.now k).id }
{
    let end = own.len().min(most);
    let from = end.min(least);
    from + own[from..end].partition_point(|o| o.id < id)
}

/// The root or the entry with this number in the state: its id, and what it holds. None if the
/// state has no such number. `kept` has the kept ids and `own` the state's own entries, `places`
/// the places of entries in the order of paths, and `slots` what each holds at the start, by place.
pub fn found_at_number(
    kept: &[u32],
    places: &[u32],
    slots: &[Option<Node>],
    own: &[Own],
    number: u64,
) -> Option<Found>
    requires merge { IsMerge kept.now own.now }
    requires inside { (k : ℕ) → k < length kept.now
        → kept_at kept.now k < length places.now + 1 }
    requires places { All (λ place. place < length slots.now) places.now }
    ensures found { IfSome result
        (IsFound kept.now (slots_by_path places.now slots.now) own.now) }
    ensures number { IfSome result (λ f. number_in kept.now own.now f.id ≡ number) }
    ensures none { IfNone result (length kept.now + length own.now ≤ number) }
{
    // A number of the state has `number` others below it, each of an own entry or of a kept id: so
    // at most `number` are of own entries, and at least `number` less `kept.len()`.
    let most = number as usize;
    let before = numbers_below(own, most.saturating_sub(kept.len()), most, number);
    if before < own.len() {
        let first = own[before];
        if first.number as u64 == number {
            return Some(Found {
                id: first.id,
                slot: first.slot,
            });
        }
    }
    let place = number as usize - before;
    if place < kept.len() {
        let id = kept[place];
        let slot = slot_of_id(places, slots, id);
        Some(Found { id, slot })
    } else {
        None
    }
}

/// The number of what is at this id in the state; None if nothing is there. `kept` has the kept
/// ids, `kept_below` how many of them are lower than each id, and `own` the state's own entries.
pub fn number_of(kept: &[u32], kept_below: &[u32], own: &[Own], id: u32) -> Option<u64>
    requires merge { IsMerge kept.now own.now }
    requires there { id < length kept_below.now }
    requires counted { kept_at kept_below.now id ≡ count_with_key_below (λ k. k) kept.now id }
    requires kept_inside { (k : ℕ) → k < length kept.now
        → kept_at kept.now k < length kept_below.now }
    requires own_inside { (k : ℕ) → k < length own.now
        → (own_in_place own.now k).id < length kept_below.now }
    requires small { length own.now < 2 ^ 32 }
    ensures there { IfSome result (λ n. HasId kept.now own.now id) }
    ensures number { IfSome result (λ n. number_in kept.now own.now id ≡ n) }
    ensures none { IfNone result (HasId kept.now own.now id → ⊥) }
{
    let place = kept_below[id as usize] as usize;
    // At most `most` own entries come before the id, and at most `others` from it on.
    let most = id as usize - place;
    let others = (kept_below.len() - id as usize).saturating_sub(kept.len() - place);
    let before = ids_below(own, own.len().saturating_sub(others), most, id);
    if before < own.len() {
        let first = own[before];
        if first.id == id {
            return Some(first.number as u64);
        }
    }
    if place < kept.len() {
        if kept[place] == id {
            return Some(place as u64 + before as u64);
        }
    }
    None
}

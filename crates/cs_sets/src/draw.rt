//! The allowed set with a number in the order of all. It is found place by place, by how many sets
//! extend those that lack the place, and those that have it. What a future is, the module `count`
//! says.
ghost use Rattle.std.specs.Prelude.{◌≡◌, ℕ, ◌+◌, ◌<◌, ◌≤◌, [], length, slice_index_or, IfOk, OnOk};
ghost use Rattle.std.specs.BTreeMap.{get};
ghost use Rattle.cs_sets.specs.Bits.{has_place};
ghost use Rattle.cs_sets.specs.Drawing.{AreCounts, IsCount, IsDraw, row_cmp};
ghost use Rattle.cs_sets.specs.Every.{every};
ghost use Rattle.cs_sets.specs.Finding.{HasNone, IsNext};
ghost use Rattle.cs_sets.specs.Places.{IsWithin, places_of};
ghost use Rattle.cs_sets.specs.Reach.{IsTransitive};
ghost use Rattle.cs_sets.specs.Rows.{needed_in};

use crate::row::Row;
use cs_names::limits::MICRO_OPERATIONS;
use std::alloc::{AllocError, Global};
use std::collections::BTreeMap;

/// A set that is being found by its number.
#[derive(Clone, Copy, Debug)]
struct Draw {
    /// The first place of which it isn't decided yet whether the set has it.
    first: usize,
    /// The future of the members: the places from `first` on that may still be added.
    left: Row,
    /// The places below `first` that the set has.
    members: Row,
    /// The number of the set, from 0, among the allowed sets that extend the members.
    rest: u128,
}

/// How many allowed sets extend a set whose future is `left`, or `most`, which isn't 0, if there
/// are more. No place of `left` is before `first`. `needed` is as in `set_numbered`. `known` has
/// counts by futures, and gets those that are made here, even before an error, which means that
/// memory ran out.
fn count_from(
    needed: &[Row],
    known: &mut BTreeMap<Row, u128>,
    most: u128,
    first: usize,
    left: Row,
) -> Result<u128, AllocError>
    requires few { length needed.now ≤ MICRO_OPERATIONS }
    requires inside { first ≤ length needed.now }
    requires some { 0 < most }
    requires chained { IsTransitive (needed_in needed.now) }
    requires none { HasNone (has_place left) 0 first }
    requires known { AreCounts (needed_in needed.now) (length needed.now) most
        (get row_cmp known.old) }
    ensures known { AreCounts (needed_in needed.now) (length needed.now) most
        (get row_cmp known.new) }
    ensures count { IfOk result (IsCount (needed_in needed.now) (length needed.now) most left) }
{
    let Some(place) = left.next_from(first, needed.len()) else {
        return Ok(1);
    };
    if let Some(count) = known.get(&left) {
        return Ok(*count);
    }
    let mut without = left;
    without.remove(&needed[place]);
    without.clear(place);
    let mut kept = left;
    kept.clear(place);
    let fewer = count_from(needed, known, most, place + 1, without)?;
    let more = count_from(needed, known, most, place + 1, kept)?;
    let count = fewer.saturating_add(more).min(most);
    known.insert(left, count)?;
    Ok(count)
}

/// Decides whether the set has `place`, the next one that may be added. The sets that lack it come
/// first, so their count decides. `needed`, `most` and `known` are those of `set_numbered`. After
/// an error, which means that memory ran out, nothing is decided.
fn decide(
    needed: &[Row],
    known: &mut BTreeMap<Row, u128>,
    most: u128,
    draw: &mut Draw,
    place: usize,
) -> Result<(), AllocError>
    requires few { length needed.now ≤ MICRO_OPERATIONS }
    requires chained { IsTransitive (needed_in needed.now) }
    requires none { HasNone (has_place draw.old.left) 0 draw.old.first }
    requires next { IsNext (has_place draw.old.left) draw.old.first (length needed.now) place }
    requires some { 0 < most }
    requires known { AreCounts (needed_in needed.now) (length needed.now) most
        (get row_cmp known.old) }
    ensures known { AreCounts (needed_in needed.now) (length needed.now) most
        (get row_cmp known.new) }
    ensures first { OnOk result (draw.new.first ≡ place + 1) }
    ensures draw { OnOk result ((number : ℕ)
        → IsDraw (needed_in needed.now) (length needed.now) most number draw.old
        → IsDraw (needed_in needed.now) (length needed.now) most number draw.new) }
{
    let mut without = draw.left;
    without.remove(&needed[place]);
    without.clear(place);
    let fewer = count_from(needed, known, most, place + 1, without)?;
    draw.first = place + 1;
    if draw.rest < fewer {
        draw.left = without;
        return Ok(());
    }
    draw.rest -= fewer;
    draw.left.clear(place);
    draw.members.set(place);
    Ok(())
}

/// The allowed set with this number, from 0, in the order of all. Row `i` of `needed` has the
/// places that need place `i` by any chain. `most` is more than there are allowed sets. `known`
/// keeps counts for further calls. The only error is that memory runs out.
pub fn set_numbered(
    needed: &[Row],
    known: &mut BTreeMap<Row, u128>,
    most: u128,
    number: u128,
) -> Result<Row, AllocError>
    requires few { length needed.now ≤ MICRO_OPERATIONS }
    requires chained { IsTransitive (needed_in needed.now) }
    requires sets { length (every (needed_in needed.now) (length needed.now)) < most }
    requires there { number < length (every (needed_in needed.now) (length needed.now)) }
    requires known { AreCounts (needed_in needed.now) (length needed.now) most
        (get row_cmp known.old) }
    ensures known { AreCounts (needed_in needed.now) (length needed.now) most
        (get row_cmp known.new) }
    ensures set { IfOk result (λ set. places_of set
        ≡ slice_index_or (every (needed_in needed.now) (length needed.now)) number []) }
{
    let mut draw = Draw {
        first: 0,
        left: Row::below(needed.len()),
        members: Row::empty(),
        rest: number,
    };
    while let Some(place) = draw.left.next_from(draw.first, needed.len()) {
        decide(needed, known, most, &mut draw, place)?;
    }
    Ok(draw.members)
}

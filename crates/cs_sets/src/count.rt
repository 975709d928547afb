//! How many allowed sets there are, without going through them.
//!
//! The **future** of a set of places below k is the set of the places from k on that may still be
//! added: those that need no place below k that the set lacks. Sets with equal futures can be
//! extended in equally many ways, so it is enough to know, place by place, which futures there are
//! and how many sets have each.
ghost use Rattle.std.specs.Prelude.{◌≡◌, ◌+◌, ◌-◌, ◌<◌, ◌≤◌, ℕ, Bool, [], false, length, min};
ghost use Rattle.std.specs.Prelude.{IfErr, IfOk, OnOk};
ghost use Rattle.std.specs.List.Sorted.{IsSortedByKey};
ghost use Rattle.std.specs.Ordering.{is_lt};
ghost use Rattle.cs_sets.specs.declared.fault.CountFault.TheVariants.{TooMany};
ghost use Rattle.cs_sets.specs.declared.row.Row.{Row};
ghost use Rattle.cs_sets.specs.Counting.{Capped, IsCrowded, weigh, weight};
ghost use Rattle.cs_sets.specs.Crowding.{AreReached, IsReached, IsRising, RisesTo, left_of, lefts};
ghost use Rattle.cs_sets.specs.Drawing.{row_cmp};
ghost use Rattle.cs_sets.specs.Every.{every};
ghost use Rattle.cs_sets.specs.Rows.{needed_in};

use crate::fault::CountFault;
use crate::row::Row;
use cs_names::limits::MICRO_OPERATIONS;
use std::alloc::{AllocError, Global};

/// How many different futures a count follows at one place. A count that would need more is
/// TooMany.
pub const FUTURES: usize = 1_048_576;

/// A future at a place k, with how many allowed sets of the places below k have it.
#[derive(Clone, Copy, Debug)]
pub struct Future {
    /// The places from k on that may still be added.
    left: Row,
    /// How many sets have this future; or the greatest number that the count is asked for, if there
    /// are more.
    sets: u128,
}

/// Appends the futures, at the place after `place`, of the sets whose future at `place` is
/// `future`: of those without `place`, and, if it may be added, of those with it. After an error,
/// which means that memory ran out, one of the two may be there.
fn push_halves(
    next: &mut Vec<Future>,
    needed: &[Row],
    place: usize,
    future: &Future,
) -> Result<(), AllocError>
    requires few { length needed.now ≤ MICRO_OPERATIONS }
    requires inside { place < length needed.now }
    ensures weight { OnOk result (let n = length needed.now in let needs = needed_in needed.now in
        weigh needs (n - (place + 1)) (place + 1) next.new.items
        ≡ weigh needs (n - (place + 1)) (place + 1) next.old.items
        + weight needs (n - place) place future.now) }
    ensures reached { OnOk result (let n = length needed.now in let needs = needed_in needed.now in
        AreReached needs n (place + 1) next.old.items → IsReached needs n place future.now.left
        → AreReached needs n (place + 1) next.new.items) }
{
    let sets = future.sets;
    let mut without = future.left;
    without.remove(&needed[place]);
    without.clear(place);
    without.know_words();
    next.push(Future {
        left: without,
        sets,
    })?;
    if !future.left.has_place(place) {
        return Ok(());
    }
    let mut kept = future.left;
    kept.clear(place);
    kept.know_words();
    next.push(Future { left: kept, sets })?;
    Ok(())
}

/// The futures at the place after `place`, by those at `place` in `level`. Equal ones aren't merged
/// yet. Row `i` of `needed` has what needs place `i` by any chain. The only error is that memory
/// runs out.
fn split(
    alloc: Global,
    needed: &[Row],
    place: usize,
    level: &[Future],
) -> Result<Vec<Future>, AllocError>
    requires few { length needed.now ≤ MICRO_OPERATIONS }
    requires inside { place < length needed.now }
    ensures weight { IfOk result
        (λ next. let n = length needed.now in let needs = needed_in needed.now in
        weigh needs (n - (place + 1)) (place + 1) next.items
        ≡ weigh needs (n - place) place level.now) }
    ensures reached { IfOk result
        (λ next. let n = length needed.now in let needs = needed_in needed.now in
        AreReached needs n place level.now → AreReached needs n (place + 1) next.items) }
{
    let mut next = Vec::new(alloc);
    for future in level {
        push_halves(&mut next, needed, place, future)?;
    }
    Ok(next)
}

/// Merges a future into the last one of `futures` if both are equal, or else appends it. A count
/// above `most` becomes `most`. The only error is that memory runs out.
fn add(futures: &mut Vec<Future>, future: &Future, most: u128) -> Result<(), AllocError>
    ensures weight { OnOk result ((needs : ℕ → ℕ → Bool) (m k : ℕ)
        → Capped most (weigh needs m k futures.new.items)
        (weigh needs m k futures.old.items + weight needs m k future.now)) }
    ensures reached { OnOk result ((needs : ℕ → ℕ → Bool) (n k : ℕ)
        → AreReached needs n k futures.old.items → IsReached needs n k future.now.left
        → AreReached needs n k futures.new.items) }
    ensures first { OnOk result (futures.old.items ≡ []
        → RisesTo (lefts futures.new.items) future.now.left) }
    ensures rises { OnOk result ((last : Row) → RisesTo (lefts futures.old.items) last
        → is_lt (row_cmp future.now.left last) ≡ false
        → RisesTo (lefts futures.new.items) future.now.left) }
{
    let len = futures.len();
    if len > 0 && futures[len - 1].left == future.left {
        let last = futures[len - 1];
        let sets = last.sets.saturating_add(future.sets).min(most);
        futures[len - 1] = Future {
            left: last.left,
            sets,
        };
        return Ok(());
    }
    futures.push(*future)?;
    Ok(())
}

/// The futures with equal neighbours merged: their counts are added, and a sum above `most` becomes
/// `most`. The only error is that memory runs out.
fn merge(alloc: Global, futures: &[Future], most: u128) -> Result<Vec<Future>, AllocError>
    ensures weight { IfOk result (λ merged. (needs : ℕ → ℕ → Bool) (m k : ℕ)
        → Capped most (weigh needs m k merged.items) (weigh needs m k futures.now)) }
    ensures reached { IfOk result (λ merged. (needs : ℕ → ℕ → Bool) (n k : ℕ)
        → AreReached needs n k futures.now → AreReached needs n k merged.items) }
    ensures rises { IfOk result (λ merged. IsSortedByKey left_of row_cmp futures.now
        → IsRising (lefts merged.items)) }
{
    let mut merged = Vec::new(alloc);
    for future in futures {
        add(&mut merged, future, most)?;
    }
    Ok(merged)
}

/// The number of all sets with one of these futures, or `most` if there are more.
fn total(futures: &[Future], most: u128) -> u128
    ensures { (needs : ℕ → ℕ → Bool) (k : ℕ) → result ≡ min (weigh needs 0 k futures.now) most }
{
    let mut sum = 0u128;
    for future in futures {
        sum = sum.saturating_add(future.sets).min(most);
    }
    sum
}

/// The futures at place 0: the empty set is the only set of the places below it, and all places may
/// still be added. Only the contract needs `most`. The only error is that memory runs out.
fn first_level(alloc: Global, needed: &[Row], most: u128) -> Result<Vec<Future>, AllocError>
    requires { length needed.now ≤ MICRO_OPERATIONS }
    ensures weight { IfOk result
        (λ level. let n = length needed.now in let needs = needed_in needed.now in
        Capped most (weigh needs (n - 0) 0 level.items) (length (every needs n))) }
    ensures reached { IfOk result
        (λ level. AreReached (needed_in needed.now) (length needed.now) 0 level.items) }
{
    let mut level = Vec::new(alloc);
    let left = Row::below(needed.len());
    left.know_words();
    level.push(Future { left, sets: 1 })?;
    Ok(level)
}

/// The different futures at the place after `place`, sorted, with how many sets have each, by those
/// at `place` in `level`. Counts above `most` become `most`. The only error is that memory runs
/// out.
fn next_level(
    alloc: Global,
    needed: &[Row],
    place: usize,
    level: &[Future],
    most: u128,
) -> Result<Vec<Future>, AllocError>
    requires few { length needed.now ≤ MICRO_OPERATIONS }
    requires inside { place < length needed.now }
    ensures weight { IfOk result
        (λ next. let n = length needed.now in let needs = needed_in needed.now in
        Capped most (weigh needs (n - (place + 1)) (place + 1) next.items)
        (weigh needs (n - place) place level.now)) }
    ensures reached { IfOk result
        (λ next. let n = length needed.now in let needs = needed_in needed.now in
        AreReached needs n place level.now → AreReached needs n (place + 1) next.items) }
    ensures rises { IfOk result (λ next. IsRising (lefts next.items)) }
{
    let mut next = split(alloc, needed, place, level)?;
    next.sort_by_key(|future| future.left)?;
    merge(alloc, next.as_slice(), most)
}

/// How many allowed sets there are, or `most` if there are more. Row `i` of `needed` has the places
/// that need place `i` by any chain. The error is TooMany if at some place there are more than
/// FUTURES different futures, else Memory.
pub fn count_sets(alloc: Global, needed: &[Row], most: u128) -> Result<u128, CountFault>
    requires { length needed.now ≤ MICRO_OPERATIONS }
    ensures count { IfOk result
        (λ count. count ≡ min (length (every (needed_in needed.now) (length needed.now))) most) }
    ensures fault { IfErr result (λ fault. fault ≡ TooMany
        → IsCrowded (needed_in needed.now) (length needed.now) FUTURES) }
{
    let mut level = first_level(alloc, needed, most)?;
    for place in 0..needed.len() {
        level = next_level(alloc, needed, place, level.as_slice(), most)?;
        if level.len() > FUTURES {
            return Err(CountFault::TooMany);
        }
    }
    Ok(total(level.as_slice(), most))
}

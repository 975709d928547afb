//! The first set of each class of all allowed sets. Sets grow place by place: each set is extended
//! without the place and, if it may have it, with it; then of the sets of one class only the first
//! is kept. What a set leaves depends only on what is seen of it (the head of the crate says what
//! that is), so each set leaves the same as the first of its class.
ghost use Rattle.std.specs.Prelude.{◌≡◌, ◌⊎◌, ◌++◌, ◌+◌, ◌==◌, ◌&&◌, ◌<◌, ◌≤◌, ℕ, Bool, true, not};
ghost use Rattle.std.specs.Prelude.{List, is_some, length, map, IfErr, IfOk, IfSome, OnOk};
ghost use Rattle.std.specs.BTreeMap.{get};
ghost use Rattle.std.specs.List.{All, flat_map, list_any};
ghost use Rattle.std.specs.Ordering.{nat_cmp};
ghost use Rattle.cs_sets.specs.Bits.{has_place};
ghost use Rattle.cs_sets.specs.Chains.{IsBackward};
ghost use Rattle.cs_sets.specs.Different.{IsLike, add_first, different, firsts, leave_alike};
ghost use Rattle.cs_sets.specs.Every.{every};
ghost use Rattle.cs_sets.specs.Places.{places_of};
ghost use Rattle.cs_sets.specs.Rows.{bit_in, needed_in};
ghost use Rattle.cs_sets.specs.Sets.{IsAllowed};
ghost use Rattle.cs_different.specs.Classing.{AreGrown, AreMet, IsClass, digest_of_row, extensions};
ghost use Rattle.cs_different.specs.Classing.{members_at, one_key, with_place};
ghost use Rattle.cs_different.specs.Seen.{has_wanted, none_seen, same_seen, see};
ghost use Rattle.cs_different.specs.declared.fault.DifferentFault.TheVariants.{Memory, TooMany};

use crate::digest::mix;
use crate::fault::DifferentFault;
use cs_names::limits::MICRO_OPERATIONS;
use cs_sets::Row;
use std::alloc::{AllocError, Global};
use std::collections::BTreeMap;

/// The most classes that are followed, of the sets of the places below any place: 262,144. A class
/// takes 256 bytes.
pub const CLASSES: usize = 1 << 18;

/// The digest of no places.
pub const NO_PLACES: u64 = 0xcbf2_9ce4_8422_2325;

/// The first set of a class, among the sets of the places below some place.
#[derive(Clone, Copy, Debug)]
pub struct Class {
    /// The places of the set.
    members: Row,
    /// What the sets of the class have in common: of the places below, those that are seen; and of
    /// the others, those that may still be added, the future of the sets.
    common: Row,
}

/// The digest of a sequence to which `place` is appended if the row has it. `digest` is that of the
/// sequence before.
fn mix_place(digest: u64, row: &Row, place: usize) -> u64
    requires { place < MICRO_OPERATIONS }
    ensures { result ≡ with_place (has_place row.now) digest place }
{
    if row.has_place(place) {
        return mix(digest, place as u64);
    }
    digest
}

/// The digest of the first `end` places of a row. Rows with different digests are different.
fn digest_row(row: &Row, end: usize) -> u64
    requires { end ≤ MICRO_OPERATIONS }
    ensures { result ≡ digest_of_row end row.now }
{
    let mut digest = NO_PLACES;
    for place in 0..end {
        digest = mix_place(digest, row, place);
    }
    digest
}

/// Whether one of the classes that were kept has the same in common. All are looked at, one after
/// another, up to the first that has.
fn is_among(kept: &[Class], class: &Class) -> bool
    ensures { result ≡ list_any (λ y. one_key y class.now) kept.now }
{
    for found in kept {
        if found.common == class.common {
            return true;
        }
    }
    false
}

/// As `is_among`, but looks only at the class at `index` if that one has the same in common.
fn is_at_or_among(kept: &[Class], index: usize, class: &Class) -> bool
    ensures { result ≡ list_any (λ y. one_key y class.now) kept.now }
{
    if index < kept.len() && kept[index].common == class.common {
        return true;
    }
    is_among(kept, class)
}

/// The digest of what the class has in common, if no class that was kept has the same; None if one
/// has. `met` has the digests of what the kept classes have in common, each with the index of a
/// class that has it. `end` is the number of all places.
fn new_digest(kept: &[Class], met: &BTreeMap<u64, usize>, end: usize, class: &Class) -> Option<u64>
    requires few { end ≤ MICRO_OPERATIONS }
    requires met { AreMet end (get nat_cmp met.now) kept.now }
    ensures new { is_some result ≡ not (list_any (λ y. one_key y class.now) kept.now) }
    ensures digest { IfSome result (λ digest. digest ≡ digest_of_row end class.now.common) }
{
    let digest = digest_row(&class.common, end);
    let Some(index) = met.get(&digest) else {
        return Some(digest);
    };
    if is_at_or_among(kept, *index, class) {
        return None;
    }
    Some(digest)
}

/// Appends a class, unless one that was kept has the same in common. `met` and `end` are as in
/// `new_digest`. If memory runs out, `met` may have a digest too many; the caller drops both.
fn keep(
    kept: &mut Vec<Class>,
    met: &mut BTreeMap<u64, usize>,
    end: usize,
    class: &Class,
) -> Result<(), AllocError>
    requires few { end ≤ MICRO_OPERATIONS }
    requires met { AreMet end (get nat_cmp met.old) kept.old.items }
    ensures kept { OnOk result (kept.new.items ≡ add_first one_key kept.old.items class.now) }
    ensures met { OnOk result (AreMet end (get nat_cmp met.new) kept.new.items) }
{
    let Some(digest) = new_digest(kept.as_slice(), met, end, class) else {
        return Ok(());
    };
    met.insert(digest, kept.len())?;
    kept.push(*class)?;
    Ok(())
}

/// What a class has in common after `place` was added to its sets, which must be one that may be
/// added: from then on it is seen, if everything that it wants is. Row `place` of `wanted` has what
/// it wants.
fn common_after(wanted: &[Row], common: &Row, place: usize) -> Row
    requires few { length wanted.now ≤ MICRO_OPERATIONS }
    requires inside { place < length wanted.now }
    requires earlier { IsBackward (bit_in wanted.now) }
    ensures { (i : ℕ) → has_place result i ≡ (has_place common.now i
        && not (i == place && not (has_wanted (bit_in wanted.now) place (has_place common.now)))) }
{
    let mut after = *common;
    if !wanted[place].is_within(common) {
        after.clear(place);
    }
    after
}

/// Extends a set of the places below `place` by `place`, and keeps what this makes: the set without
/// `place`, to which nothing that needs it may be added any more; and, if it may be added, the set
/// with it. `needed` has for each place those that need it by any chain, and `wanted` those that it
/// wants. After an error, which means that memory ran out, one of the two may be kept.
fn keep_choices(
    kept: &mut Vec<Class>,
    met: &mut BTreeMap<u64, usize>,
    wanted: &[Row],
    needed: &[Row],
    place: usize,
    class: &Class,
) -> Result<(), AllocError>
    requires few { length needed.now ≤ MICRO_OPERATIONS }
    requires inside { place < length needed.now }
    requires backward { IsBackward (needed_in needed.now) }
    requires wanted { length wanted.now ≡ length needed.now }
    requires earlier { IsBackward (bit_in wanted.now) }
    requires is { IsClass (see (bit_in wanted.now)) none_seen (needed_in needed.now)
        (length needed.now) place class.now }
    requires met { AreMet (length needed.now) (get nat_cmp met.old) kept.old.items }
    ensures grown { OnOk result ((sets : List (List ℕ))
        → AreGrown (see (bit_in wanted.now)) none_seen (needed_in needed.now) (length needed.now)
        (place + 1) sets kept.old.items
        → AreGrown (see (bit_in wanted.now)) none_seen (needed_in needed.now) (length needed.now)
        (place + 1) (sets ++ extensions (needed_in needed.now) (length needed.now) place class.now)
        kept.new.items) }
    ensures met { OnOk result (AreMet (length needed.now) (get nat_cmp met.new) kept.new.items) }
{
    let mut without = class.common;
    without.remove(&needed[place]);
    without.clear(place);
    let lacks = Class {
        members: class.members,
        common: without,
    };
    keep(kept, met, needed.len(), &lacks)?;
    if !class.common.has_place(place) {
        return Ok(());
    }
    let mut members = class.members;
    members.set(place);
    let common = common_after(wanted, &class.common, place);
    let has = Class { members, common };
    keep(kept, met, needed.len(), &has)?;
    Ok(())
}

/// All sets of a level, those kept of the places below `place`, each extended by this place, in
/// order; and of these the first of each class.
fn grow(
    alloc: Global,
    wanted: &[Row],
    needed: &[Row],
    place: usize,
    level: &[Class],
) -> Result<Vec<Class>, AllocError>
    requires few { length needed.now ≤ MICRO_OPERATIONS }
    requires inside { place < length needed.now }
    requires backward { IsBackward (needed_in needed.now) }
    requires wanted { length wanted.now ≡ length needed.now }
    requires earlier { IsBackward (bit_in wanted.now) }
    requires are { All (IsClass (see (bit_in wanted.now)) none_seen (needed_in needed.now)
        (length needed.now) place) level.now }
    ensures { IfOk result (λ kept.
        AreGrown (see (bit_in wanted.now)) none_seen (needed_in needed.now) (length needed.now)
        (place + 1)
        (flat_map (extensions (needed_in needed.now) (length needed.now) place) level.now)
        kept.items) }
{
    let mut kept: Vec<Class> = Vec::new(alloc);
    let mut met: BTreeMap<u64, usize> = BTreeMap::new(alloc);
    for class in level {
        keep_choices(&mut kept, &mut met, wanted, needed, place, class)?;
    }
    Ok(kept)
}

/// The first level: only the set without places, to which every place may still be added. All
/// allowed sets extend it.
fn first_level(alloc: Global, needed: &[Row]) -> Result<Vec<Class>, AllocError>
    requires few { length needed.now ≤ MICRO_OPERATIONS }
    requires backward { IsBackward (needed_in needed.now) }
    ensures extends { IfOk result (λ level.
        flat_map (extensions (needed_in needed.now) (length needed.now) 0) level.items
        ≡ every (needed_in needed.now) (length needed.now)) }
    ensures classes { IfOk result (λ level. (wants : ℕ → ℕ → Bool)
        → All (IsClass (see wants) none_seen (needed_in needed.now) (length needed.now) 0)
        level.items) }
{
    let common = Row::below(needed.len());
    let members = Row::empty();
    let mut level: Vec<Class> = Vec::new(alloc);
    level.push(Class { members, common })?;
    Ok(level)
}

/// The first set of each class of all allowed sets. TooMany if at some place more than CLASSES
/// classes are kept.
fn classes_of(alloc: Global, wanted: &[Row], needed: &[Row]) -> Result<Vec<Class>, DifferentFault>
    requires few { length needed.now ≤ MICRO_OPERATIONS }
    requires backward { IsBackward (needed_in needed.now) }
    requires wanted { length wanted.now ≡ length needed.now }
    requires earlier { IsBackward (bit_in wanted.now) }
    ensures classes { IfOk result (λ found.
        All (IsClass (see (bit_in wanted.now)) none_seen (needed_in needed.now)
        (length needed.now) (length needed.now)) found.items) }
    ensures firsts { IfOk result (λ found. (like : (ℕ → Bool) → (ℕ → Bool) → Bool) → IsLike like
        → ((a b : ℕ → Bool) → same_seen (length needed.now) a b ≡ true → like a b ≡ true)
        → firsts (leave_alike like (see (bit_in wanted.now)) none_seen)
        (map (members_at (length needed.now)) found.items)
        ≡ different like (see (bit_in wanted.now)) none_seen
        (needed_in needed.now) (length needed.now)) }
    ensures refused { IfErr result (λ fault. (fault ≡ Memory)
        ⊎ ((fault ≡ TooMany)
        × (CLASSES < length (every (needed_in needed.now) (length needed.now))))) }
{
    let mut level = first_level(alloc, needed)?;
    for place in 0..needed.len() {
        let kept = grow(alloc, wanted, needed, place, level.as_slice())?;
        if kept.len() > CLASSES {
            return Err(DifferentFault::TooMany);
        }
        level = kept;
    }
    Ok(level)
}

/// The set of each class, in order.
fn rows_of(alloc: Global, classes: &[Class]) -> Result<Vec<Row>, AllocError>
    ensures { IfOk result (λ rows. rows.items ≡ map (λ class. class.members) classes.now) }
{
    let mut rows = Vec::new(alloc);
    for class in classes {
        rows.push(class.members)?;
    }
    Ok(rows)
}

/// The first set of each class of all allowed sets, in the order of sets. Take any test of whether
/// two sets are alike that holds if the same is seen of both: then the first sets of these by the
/// test are the first sets of all allowed sets by it. `needed` has, for each place, the places that
/// need it by any chain, and `wanted` those that it wants. TooMany if at some place more than
/// CLASSES classes are kept.
pub fn class_sets(alloc: Global, wanted: &[Row], needed: &[Row]) -> Result<Vec<Row>, DifferentFault>
    requires few { length needed.now ≤ MICRO_OPERATIONS }
    requires backward { IsBackward (needed_in needed.now) }
    requires wanted { length wanted.now ≡ length needed.now }
    requires earlier { IsBackward (bit_in wanted.now) }
    ensures allowed { IfOk result (λ found.
        All (λ row. IsAllowed (needed_in needed.now) (length needed.now) (places_of row))
        found.items) }
    ensures firsts { IfOk result (λ found. (like : (ℕ → Bool) → (ℕ → Bool) → Bool) → IsLike like
        → ((a b : ℕ → Bool) → same_seen (length needed.now) a b ≡ true → like a b ≡ true)
        → firsts (leave_alike like (see (bit_in wanted.now)) none_seen)
        (map places_of found.items)
        ≡ different like (see (bit_in wanted.now)) none_seen
        (needed_in needed.now) (length needed.now)) }
    ensures refused { IfErr result (λ fault. (fault ≡ Memory)
        ⊎ ((fault ≡ TooMany)
        × (CLASSES < length (every (needed_in needed.now) (length needed.now))))) }
{
    let classes = classes_of(alloc, wanted, needed)?;
    let rows = rows_of(alloc, &classes)?;
    Ok(rows)
}

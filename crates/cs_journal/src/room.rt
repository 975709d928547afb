//! How many entries a call takes, and the memory for them and for what they keep of it.
ghost use Rattle.std.specs.Prelude.{◌≡◌, ◌+◌, ◌≤◌, ◌||◌, ◌⊎◌, ◌<◌, IfSome, IsNone, IsSome};
ghost use Rattle.std.specs.Prelude.{OnErr, OnOk, false, length, true, vec_capacity, vec_len};
ghost use Rattle.std.specs.Arc.{arc_value};
ghost use Rattle.cs_names.specs.declared.limits.TheConstants.{JOURNAL_ENTRIES};
ghost use Rattle.cs_journal.specs.Calls.{charge};
ghost use Rattle.cs_journal.specs.Keeping.{KeepsCall};
ghost use Rattle.cs_journal.specs.Small.{is_small, is_write};
ghost use Rattle.cs_run.specs.Laws.{opens_one};

use crate::journal::Journal;
use crate::keep_call::keep_call;
use crate::kept_call::KeptCall;
use crate::receipt::Receipt;
use crate::user_text::UserText;
use cs_names::limits::JOURNAL_ENTRIES;
use cs_permit::Call;
use cs_run::closed_open_number;
use cs_run::opens::Opens;
use std::alloc::{AllocError, Global};
use std::sync::Arc;

/// A list of at least this many elements is long: `grow` expects that it gets many more.
const LONG: usize = 1_024;

/// Whether a granted call of this kind adds an open.
fn opens_one(call: &Call<'_>) -> bool
    ensures { result ≡ opens_one call.now }
{
    match call {
        Call::Open(_) | Call::Create(_) => true,
        Call::Attach(_)
        | Call::Walk(_)
        | Call::Read(_)
        | Call::Write(_)
        | Call::Close(_)
        | Call::Remove(_)
        | Call::Stat(_)
        | Call::Wstat(_) => false,
    }
}

/// How many entries a call takes besides those that are reserved. 0 if it ends an open that is
/// there: an entry is reserved for that. 2 for an open or a create: one is reserved for the close.
/// Else 1.
pub(crate) fn charge_of(call: &Call<'_>, opens: &Opens, pass: u32) -> usize
    ensures value { result ≡ charge opens.now.items pass call.now }
    ensures few { result ≤ 2 }
{
    if let Some(number) = closed_open_number(call) {
        if opens.get(number, pass).is_some() {
            return 0;
        }
    }
    if opens_one(call) { 2 } else { 1 }
}

/// Allocates blank texts until there are at least `count`. The error is out of memory; the texts
/// that it made before stay.
#[inline]
fn fill_blanks(
    alloc: Global,
    blanks: &mut Vec<Box<UserText>>,
    count: usize,
) -> Result<(), AllocError>
    ensures room { OnOk result (count ≤ vec_len blanks.new) }
    ensures kept { vec_len blanks.old ≤ vec_len blanks.new }
    ensures refused { OnErr result (vec_len blanks.old < count) }
{
    while blanks.len() < count {
        blanks.push(Box::new(alloc, UserText::blank())?)?;
    }
    Ok(())
}

/// Makes room for `more` elements in a list that has too little. A long list gets room for a whole
/// journal at once, if there is memory, so that it isn't copied again: the operating system
/// provides no page for the unused part. The error is out of memory; the elements are as they were.
#[inline(never)]
fn grow<T>(list: &mut Vec<T>, more: usize) -> Result<(), AllocError>
    ensures items { (list.new.items ≡ list.old.items) × (vec_len list.new ≡ vec_len list.old) }
    ensures ok { OnOk result (vec_len list.new + more ≤ vec_capacity list.new) }
    ensures capacity { vec_capacity list.old ≤ vec_capacity list.new }
    ensures full { OnErr result (vec_capacity list.old < vec_len list.old + more) }
{
    let len = list.len();
    if LONG <= len && len < JOURNAL_ENTRIES {
        // if there is no memory for so many, room for `more` suffices
        let _whole = list.reserve_exact(JOURNAL_ENTRIES - len);
    }
    list.reserve(more)
}

/// Makes room for `more` elements, if the list has too little. The error is out of memory; the
/// elements are as they were.
#[inline]
pub(crate) fn widen<T>(list: &mut Vec<T>, more: usize) -> Result<(), AllocError>
    ensures items { (list.new.items ≡ list.old.items) × (vec_len list.new ≡ vec_len list.old) }
    ensures ok { OnOk result (vec_len list.new + more ≤ vec_capacity list.new) }
    ensures capacity { vec_capacity list.old ≤ vec_capacity list.new }
    ensures full { OnErr result (vec_capacity list.old < vec_len list.old + more) }
{
    if list.capacity() - list.len() >= more {
        return Ok(());
    }
    grow(list, more)
}

/// What the entry and the receipt of a call keep, after making room for `entries_more` entries,
/// `receipts_more` receipts and twice as many blank texts: one entry and one receipt are for this
/// call, the rest for the closes to come. None if memory runs out. The journal's entries and the
/// receipts stay as they were in any case; room that was made stays.
#[inline]
pub(crate) fn reserve_and_keep(
    alloc: Global,
    call: &Call<'_>,
    shared: Option<&Arc<Call<'static>>>,
    journal: &mut Journal,
    receipts: &mut Vec<Receipt>,
    blanks: &mut Vec<Box<UserText>>,
    entries_more: usize,
    receipts_more: usize,
) -> Option<(KeptCall, KeptCall)>
    requires apart { IsNone shared → (is_small call.now || is_write call.now) ≡ true }
    requires shared { IfSome shared (λ whole. (arc_value whole.now ≡ call.now)
        × (is_small call.now ≡ false)) }
    requires some { 1 ≤ receipts_more }
    requires few { receipts_more ≤ JOURNAL_ENTRIES }
    ensures kept { IfSome result (λ made. KeepsCall journal.new call.now made) }
    ensures refused { IsNone result → (is_small call.now ≡ false)
        ⊎ ((journal.old.capacity + 1 ≤ length journal.old.items + entries_more)
        ⊎ ((vec_capacity receipts.old + 1 ≤ vec_len receipts.old + receipts_more)
        ⊎ (vec_len blanks.old < receipts_more + receipts_more))) }
    ensures journal { journal.new.items ≡ journal.old.items }
    ensures journal_room { (journal.old.capacity ≤ journal.new.capacity)
        × (IsSome result → length journal.new.items + entries_more ≤ journal.new.capacity) }
    ensures receipts { (receipts.new.items ≡ receipts.old.items)
        × (vec_len receipts.new ≡ vec_len receipts.old) }
    ensures receipts_room { (vec_capacity receipts.old ≤ vec_capacity receipts.new)
        × (IsSome result → vec_len receipts.new + receipts_more ≤ vec_capacity receipts.new) }
    ensures blanks { IsNone result → vec_len blanks.old ≤ vec_len blanks.new }
    ensures blanks_left { IsSome result → receipts_more + receipts_more ≤ vec_len blanks.new + 2 }
{
    if journal.widen(entries_more).is_err()
        || widen(receipts, receipts_more).is_err()
        || fill_blanks(alloc, blanks, receipts_more + receipts_more).is_err()
    {
        return None;
    }
    keep_call(alloc, call, shared, journal, blanks).ok()
}

//! Keeping a call: what its entry and its receipt get, both at once.
ghost use Rattle.std.specs.Prelude.{◌≡◌, ◌+◌, ◌≤◌, ◌||◌, IfOk, IfSome, IsNone, OnErr, false, true};
ghost use Rattle.std.specs.Prelude.{vec_len};
ghost use Rattle.std.specs.Arc.{arc_value};
ghost use Rattle.cs_journal.specs.Keeping.{KeepsCall};
ghost use Rattle.cs_journal.specs.Small.{is_small, is_write};

use crate::journal::Journal;
use crate::kept_call::KeptCall;
use crate::user_text::UserText;
use cs_permit::Call;
use std::alloc::{AllocError, Global};
use std::sync::Arc;

/// Whether the call is a write.
pub(crate) fn is_write(call: &Call<'_>) -> bool
    ensures { result ≡ is_write call.now }
{
    match call {
        Call::Write(_) => true,
        Call::Attach(_)
        | Call::Walk(_)
        | Call::Open(_)
        | Call::Create(_)
        | Call::Read(_)
        | Call::Close(_)
        | Call::Remove(_)
        | Call::Stat(_)
        | Call::Wstat(_) => false,
    }
}

/// The call in an Arc, for its entry and its receipt to share. The error is out of memory, and the
/// call is dropped. The caller has checked that the call isn't a write (`is_write`), so it borrows
/// no bytes.
pub(crate) fn share(alloc: Global, call: Call<'_>) -> Result<Arc<Call<'static>>, AllocError>
    requires { is_write call ≡ false }
    ensures { IfOk result (λ shared. arc_value shared ≡ call.entry) }
{
    let whole = match call {
        Call::Attach(call) => Call::Attach(call),
        Call::Walk(call) => Call::Walk(call),
        Call::Open(call) => Call::Open(call),
        Call::Create(call) => Call::Create(call),
        Call::Read(call) => Call::Read(call),
        // the call isn't a write: a requires says so
        Call::Write(_) => unreachable!(),
        Call::Close(call) => Call::Close(call),
        Call::Remove(call) => Call::Remove(call),
        Call::Stat(call) => Call::Stat(call),
        Call::Wstat(call) => Call::Wstat(call),
    };
    Ok(Arc::new(alloc, whole)?)
}

/// What the entry and the receipt of a call keep, in this order: the Arc if `shared` has one, the
/// stored bytes of a write, or the fields of a small call (`is_small`), for which memory can't run
/// out. A close or a remove takes two of the blank texts. The error is out of memory; no blank text
/// is taken then, and the journal's entries are as they were.
#[inline]
pub(crate) fn keep_call(
    alloc: Global,
    call: &Call<'_>,
    shared: Option<&Arc<Call<'static>>>,
    journal: &mut Journal,
    blanks: &mut Vec<Box<UserText>>,
) -> Result<(KeptCall, KeptCall), AllocError>
    requires apart { IsNone shared → (is_small call.now || is_write call.now) ≡ true }
    requires shared { IfSome shared (λ whole. (arc_value whole.now ≡ call.now)
        × (is_small call.now ≡ false)) }
    requires blanks { 2 ≤ vec_len blanks.old }
    ensures items { journal.new.items ≡ journal.old.items }
    ensures capacity { journal.new.capacity ≡ journal.old.capacity }
    ensures kept { IfOk result (λ made. KeepsCall journal.new call.now made) }
    ensures err { OnErr result (is_small call.now ≡ false) }
    ensures left { vec_len blanks.old ≤ vec_len blanks.new + 2 }
    ensures unused { OnErr result (vec_len blanks.new ≡ vec_len blanks.old) }
{
    if let Some(whole) = shared {
        let entry = KeptCall::Shared(whole.clone()?);
        return Ok((entry, KeptCall::Shared(whole.clone()?)));
    }
    match call {
        Call::Write(call) => journal.keep_write(alloc, call),
        // the call is small: a requires says so
        _ => {
            let entry = KeptCall::of_small(call, blanks);
            Ok((entry, KeptCall::of_small(call, blanks)))
        }
    }
}

//! The entries of a journal.
ghost use Rattle.std.specs.Prelude.{◌≡◌, ◌<◌, IfOk};
ghost use Rattle.cs_names.specs.declared.limits.TheConstants.{RUN_ATTACHES};

use crate::kept_call::{CallAgain, KeptCall};
use crate::summary::CallSummary;
use crate::written::Written;
use cs_run::{Outcome, Turn};
use std::alloc::{AllocError, Global};
use std::marker::Model;

/// An entry of a journal as it is stored: the pass under which its call came, how the call ended,
/// its moment, and what is kept of it, without the bytes that it wrote.
#[derive(Drop)]
pub struct Entry {
    /// The number of the pass, below RUN_ATTACHES: 8 bits, to keep an entry small.
    pub(crate) pass: u8,
    /// How the call ended.
    pub(crate) outcome: Outcome,
    /// In seconds since 1970.
    pub(crate) moment: u32,
    /// The call; if it is a write, its bytes are in the journal's `Written`.
    pub(crate) kept: KeptCall,
}

/// An entry with the bytes that its call wrote. Contracts see the pass, the moment, the call, and
/// how it ended.
#[derive(Drop)]
pub(crate) struct EntryRef<'a> {
    /// As the journal stores it.
    pub(crate) entry: &'a Entry,
    /// The bytes of all writes of the same journal.
    pub(crate) written: &'a Written,
}

impl<'a> Model for EntryRef<'a> {
    ghost use Rattle.cs_journal.specs.Journals.{EntryOf};

    ghost Value = { EntryOf };

    ghost use Rattle.cs_journal.specs.Kept.{IsEntryIn, entry_in};

    ghost view = { λ e. entry_in e.written.now e.entry.now };

    ghost invariant = { λ e. IsEntryIn e.written.now e.entry.now };
}

impl<'a> EntryRef<'a> {
    ghost use Rattle.cs_journal.specs.Kept.{again_call};
    ghost use Rattle.cs_journal.specs.Summaries.{call_in, without_bytes};

    /// The number of the pass under which its call came.
    pub(crate) fn pass(&self) -> usize
        ensures value { result ≡ self.now.pass }
        ensures few { result < RUN_ATTACHES }
    {
        self.entry.pass as usize
    }

    /// The turn of its call. `place` is the entry's place in its journal, which an entry doesn't
    /// store.
    pub(crate) fn turn(&self, place: u32) -> Turn
        ensures { result ≡ record {
          moment = self.now.moment;
          place = place;
          pass = self.now.pass;
        } }
    {
        Turn {
            moment: self.entry.moment,
            place,
            pass: u32::from(self.entry.pass),
        }
    }

    /// How its call ended.
    pub(crate) fn outcome(&self) -> Outcome
        ensures { result ≡ self.now.outcome }
    {
        self.entry.outcome
    }

    /// Its call without the bytes that it writes.
    pub(crate) fn summary(&self) -> CallSummary<'_>
        ensures { call_in result ≡ without_bytes self.now.call }
    {
        self.entry.kept.summary()
    }

    /// Its call as it came, so that it can be done again; the bytes that it writes are borrowed. An
    /// error means that memory ran out.
    pub(crate) fn again(&self, alloc: Global) -> Result<CallAgain<'a>, AllocError>
        ensures { IfOk result (λ again. again_call again ≡ self.now.call) }
    {
        self.entry.kept.again(alloc, self.written)
    }
}

//! The journal of a run: its entries, and the bytes that their calls wrote.
ghost use Rattle.std.specs.Prelude.{◌≡◌, ◌<◌, ◌≤◌, ◌+◌, [], ◌∷◌, ◌++◌, IfOk, OnErr, OnOk, Some};
ghost use Rattle.std.specs.Prelude.{length, slice_get};
ghost use Rattle.cs_names.specs.declared.limits.TheConstants.{RUN_ATTACHES};
ghost use Rattle.cs_journal.specs.Keeping.{KeepsCall};
ghost use Rattle.cs_journal.specs.Kept.{LiesIn, entry_in};
ghost use Rattle.cs_permit.specs.declared.call.Call.TheVariants.{Write};

use crate::entry::{Entry, EntryRef};
use crate::kept_call::{KeptCall, WriteHead};
use crate::room::widen;
use crate::user_text::UserText;
use crate::written::Written;
use cs_permit::WriteCall;
use std::alloc::{AllocError, Global};
use std::marker::Model;
use std::sync::Arc;

/// The entries of a run, in order. Contracts see them, each with its whole call, for how many there
/// is room, and, block after block, the bytes that their calls write.
#[derive(Drop)]
pub(crate) struct Journal {
    /// In the order of the calls.
    entries: Vec<Entry>,
    /// What the writes among them wrote.
    written: Written,
}

impl Model for Journal {
    ghost use Rattle.std.specs.List.{All};
    ghost use Rattle.std.specs.Prelude.{map, vec_capacity};
    ghost use Rattle.cs_journal.specs.Journals.{JournalOf};

    ghost Value = { JournalOf };

    ghost use Rattle.cs_journal.specs.Kept.{IsEntryIn, entry_in};

    ghost view = { λ journal. record {
      items = map (entry_in journal.written) journal.entries.items;
      capacity = vec_capacity journal.entries;
      blocks = journal.written;
    } };

    ghost invariant = { λ journal. All (IsEntryIn journal.written) journal.entries.items };
}

impl Journal {
    /// A journal without entries.
    pub(crate) fn new(alloc: Global) -> Journal
        ensures { result.items ≡ [] }
    {
        Journal {
            entries: Vec::new(alloc),
            written: Written::new(alloc),
        }
    }

    /// How many entries there are.
    pub(crate) fn len(&self) -> usize
        ensures { result ≡ length self.now.items }
    {
        self.entries.len()
    }

    /// Makes room for `more` entries, as `widen` of `room` does for any list. The error is out of
    /// memory; the entries are as they were.
    #[inline]
    pub(crate) fn widen(&mut self, more: usize) -> Result<(), AllocError>
        ensures items { self.new.items ≡ self.old.items }
        ensures ok { OnOk result (length self.new.items + more ≤ self.new.capacity) }
        ensures capacity { self.old.capacity ≤ self.new.capacity }
        ensures full { OnErr result (self.old.capacity < length self.old.items + more) }
    {
        widen(&mut self.entries, more)
    }

    /// Stores the bytes of a write, and returns what its entry and its receipt keep of it, in this
    /// order. It adds no entry. The error is out of memory; the entries are as they were, and bytes
    /// that no entry has may stay.
    pub(crate) fn keep_write(
        &mut self,
        alloc: Global,
        call: &WriteCall<'_>,
    ) -> Result<(KeptCall, KeptCall), AllocError>
        ensures items { self.new.items ≡ self.old.items }
        ensures capacity { self.new.capacity ≡ self.old.capacity }
        ensures kept { IfOk result (λ made. KeepsCall self.new (Write call.now) made) }
    {
        let head = WriteHead {
            number: call.number,
            offset: call.offset,
            user: UserText::of(&call.user),
        };
        let head = Arc::new(alloc, head)?;
        let shared = head.clone()?;
        let piece = self.written.push_bytes(alloc, call.bytes.as_slice())?;
        let entry = KeptCall::Write { piece, head };
        let receipt = KeptCall::Write {
            piece,
            head: shared,
        };
        Ok((entry, receipt))
    }

    /// Adds an entry into the room that `widen` made. The bytes of its call are stored already.
    #[inline]
    pub(crate) fn push(&mut self, entry: Entry)
        requires room { length self.old.items < self.old.capacity }
        requires pass { entry.pass < RUN_ATTACHES }
        requires lies { LiesIn self.old.blocks entry.kept }
        ensures items { self.new.items ≡ self.old.items ++ entry_in self.old.blocks entry ∷ [] }
        ensures len { length self.new.items ≡ length self.old.items + 1 }
        ensures capacity { self.new.capacity ≡ self.old.capacity }
    {
        self.entries.push_reserved(entry);
    }

    /// The entry at that place, which is below `len`, with the bytes that its call wrote.
    pub(crate) fn entry(&self, place: usize) -> EntryRef<'_>
        requires { place < length self.now.items }
        ensures { slice_get self.now.items place ≡ Some result }
    {
        EntryRef {
            entry: &self.entries[place],
            written: &self.written,
        }
    }
}

//! The slot of a fid in a table. A call that changes the entry moves it out and puts it back before
//! it returns, so no call finds a slot without an entry.
ghost use Rattle.std.specs.Prelude.{◌≡◌, OnErr, IfOk, Some};

use crate::entry::FidEntry;
use crate::fault::FidFault;
use crate::place::Place;
use std::marker::Model;

/// The slot of a fid. Contracts see its entry, which is missing only while a call changes it.
#[derive(Debug, Drop)]
pub(crate) struct Slot {
    entry: Option<FidEntry>,
}

impl Model for Slot {
    ghost use Rattle.std.specs.Prelude.{IsSome};
    ghost use Rattle.cs_fids.specs.declared.entry.FidEntry.{FidEntry};

    ghost Value = { FidEntry };

    ghost use Rattle.cs_fids.specs.Slots.{entry_in};

    ghost view = { λ slot. entry_in slot.entry };

    ghost invariant = { λ slot. IsSome slot.entry };
}

impl Slot {
    ghost use Rattle.cs_fids.specs.Fids.{moved_to, opened_fid, with_place};
    ghost use Rattle.cs_fids.specs.Tables.{FailsAs, opened_in, walked_in};

    /// A slot with this entry.
    pub(crate) fn new(entry: FidEntry) -> Slot
        ensures { result ≡ entry }
    {
        Slot { entry: Some(entry) }
    }

    /// Lends the entry.
    pub(crate) fn entry(&self) -> &FidEntry
        ensures { result.now ≡ self.now }
    {
        match &self.entry {
            Some(entry) => entry,
            // the invariant: every call puts the entry back
            None => unreachable!(),
        }
    }

    /// Moves the entry out and drops the slot.
    pub(crate) fn into_entry(self) -> FidEntry
        ensures { result ≡ self }
    {
        match self.entry {
            Some(entry) => entry,
            // the invariant: every call puts the entry back
            None => unreachable!(),
        }
    }

    /// Opens the slot's fid in this mode; `open_number` is the number that its run gave to the
    /// open. If the fid is open already, the error is AlreadyOpen and the entry is unchanged.
    pub(crate) fn open(&mut self, mode: u8, open_number: u32) -> Result<(), FidFault>
        ensures faults { FailsAs result (walked_in (Some self.old)) }
        ensures entry { IfOk (walked_in (Some self.old))
            (λ walked. self.new ≡ FidEntry.Opened (opened_fid walked mode open_number)) }
        ensures unchanged { OnErr result (self.new ≡ self.old) }
    {
        let (entry, answer) = match self.entry.take() {
            Some(FidEntry::Walked(walked)) => (
                FidEntry::Opened(walked.open(mode, open_number)),
                Ok(()),
            ),
            Some(open) => (open, Err(FidFault::AlreadyOpen)),
            // the invariant: every call puts the entry back
            None => unreachable!(),
        };
        self.entry = Some(entry);
        answer
    }

    /// Moves the slot's fid to the file of this number in its run. If the fid is open, the error is
    /// AlreadyOpen and the entry is unchanged.
    pub(crate) fn move_to(&mut self, number: u64) -> Result<(), FidFault>
        ensures faults { FailsAs result (walked_in (Some self.old)) }
        ensures entry { IfOk (walked_in (Some self.old))
            (λ walked. self.new ≡ FidEntry.Walked (moved_to walked number)) }
        ensures unchanged { OnErr result (self.new ≡ self.old) }
    {
        let (entry, answer) = match self.entry.take() {
            Some(FidEntry::Walked(walked)) => (FidEntry::Walked(walked.moved_to(number)), Ok(())),
            Some(open) => (open, Err(FidFault::AlreadyOpen)),
            // the invariant: every call puts the entry back
            None => unreachable!(),
        };
        self.entry = Some(entry);
        answer
    }

    /// Sets the place at which reads of a directory by the slot's fid continue. If the fid isn't
    /// open, the error is NotOpen, the entry is unchanged, and the new place is dropped.
    pub(crate) fn set_place(&mut self, place: Place) -> Result<(), FidFault>
        ensures faults { FailsAs result (opened_in (Some self.old)) }
        ensures entry { IfOk (opened_in (Some self.old))
            (λ found. self.new ≡ FidEntry.Opened (with_place found place)) }
        ensures unchanged { OnErr result (self.new ≡ self.old) }
    {
        let (entry, answer) = match self.entry.take() {
            Some(FidEntry::Opened(open)) => (FidEntry::Opened(open.with_place(place)), Ok(())),
            Some(walked) => (walked, Err(FidFault::NotOpen)),
            // the invariant: every call puts the entry back
            None => unreachable!(),
        };
        self.entry = Some(entry);
        answer
    }
}

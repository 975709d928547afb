//! The fids of a connection, and which of them are open.
ghost use Rattle.std.specs.Prelude.{◌≡◌, ◌≢◌, ◌+◌, ◌<◌, ◌≤◌, ◌↔◌, IfErr, IfOk, IfSome, IsErr};
ghost use Rattle.std.specs.Prelude.{IsNone, IsOk, IsOkUnless, IsSome, IsTrue, MatchResult, None};
ghost use Rattle.std.specs.Prelude.{OnErr, OnOk, option_copied};
ghost use Rattle.std.specs.FinMap.{empty, insert, len, remove};
ghost use Rattle.std.specs.Option.{ok_or};
ghost use Rattle.cs_fids.specs.Fids.{moved_to, opened_fid, with_place};
ghost use Rattle.cs_fids.specs.Tables.{FailsAs, fid_at, least_open, opened_in, walked_in};

use crate::entry::FidEntry;
use crate::fault::FidFault;
use crate::fid::{Fid, NOFID, Opened, Walked};
use crate::opens::{add_open_fid, remove_open_fid};
use crate::place::Place;
use crate::slot::Slot;
use cs_names::limits::FIDS;
use indexmap::IndexMap;
use std::alloc::Global;
use std::marker::Model;

/// The fids of a connection by their numbers: at most FIDS, and never NOFID. Contracts see a finite
/// map, without an order, and the room for more. The open fids are also kept as a sorted list, so
/// that the least is found at once.
#[derive(Drop)]
pub struct FidTable {
    fids: IndexMap<u32, Slot>,
    // the numbers of the open fids, the least last
    opens: Vec<u32>,
}

impl Model for FidTable {
    ghost use Rattle.std.specs.Prelude.{vec_capacity};
    ghost use Rattle.cs_fids.specs.Opens.{AreOpens, table_of};
    ghost use Rattle.cs_fids.specs.Tables.{AreFids, Fids, fids_code, map_of};
    ghost use Rattle.indexmap.specs.IndexMap.{spare};

    ghost Value = { Fids };

    ghost coded = { fids_code };

    ghost view = { λ table.
        table_of table.fids.entries (spare table.fids) (vec_capacity table.opens) };

    ghost invariant = { λ table.
        AreFids table.fids.entries
        × AreOpens (map_of table.fids.entries) table.opens.items (vec_capacity table.opens) };
}

impl FidTable {
    /// An empty table. It takes no memory.
    pub fn new(alloc: Global) -> FidTable
        ensures { result.fids ≡ empty }
    {
        FidTable {
            fids: IndexMap::new(alloc),
            opens: Vec::new(alloc),
        }
    }

    /// The number of fids, at most FIDS.
    pub fn len(&self) -> usize
        ensures value { result ≡ len self.now.fids }
        ensures few { result ≤ FIDS }
    {
        self.fids.len()
    }

    /// Lends the entry of the fid; None if the table has no such fid. It never has NOFID.
    pub fn entry_of(&self, fid: u32) -> Option<&FidEntry>
        ensures value { option_copied result ≡ fid_at self.now fid }
        ensures nofid { fid ≡ NOFID → IsNone result }
    {
        match self.fids.get(&fid) {
            Some(slot) => Some(slot.entry()),
            None => None,
        }
    }

    /// The least number of an open fid; None if no fid is open. When a session ends, its fids are
    /// closed in this order.
    pub fn least_open(&self) -> Option<u32>
        ensures least { result ≡ least_open self.now.fids }
        ensures found { IfSome result (λ fid. IsOk (opened_in (fid_at self.now fid))) }
    {
        self.opens.last().copied()
    }

    /// Whether `put` may add one fid more: there are fewer than FIDS, and memory for it is
    /// reserved. No command asks this: `reserve` makes it so.
    pub fn has_room(&self) -> bool
        ensures { IsTrue result ↔ (0 < self.now.room) }
    {
        let len = self.fids.len();
        len < FIDS && len < self.fids.capacity() && len < self.opens.capacity()
    }

    /// Reserves memory for one fid more; if the table has room already, it succeeds. The error is
    /// TableFull if the table has FIDS fids, else Memory. No fid changes, even after an error.
    pub fn reserve(&mut self) -> Result<(), FidFault>
        ensures room { OnOk result (0 < self.new.room) }
        ensures full { FIDS ≤ len self.old.fids → result ≡ Err FidFault.TableFull }
        ensures memory { len self.old.fids < FIDS → IsOkUnless result FidFault.Memory }
        ensures succeeds { 0 < self.old.room → IsOk result }
        ensures fids { self.new.fids ≡ self.old.fids }
        ensures kept { self.old.room ≤ self.new.room }
    {
        if self.fids.len() >= FIDS {
            return Err(FidFault::TableFull);
        }
        self.fids.reserve(1)?;
        let wanted = self.fids.len() + 1;
        // `opens` gets room for as many numbers as there are fids; it never has more, so nothing
        // saturates
        self.opens.reserve(wanted.saturating_sub(self.opens.len()))?;
        Ok(())
    }

    /// Adds the fid with this entry. The table must have room (`has_room`; `reserve` makes it), and
    /// the number must not be NOFID. If the table has that fid already, the error is InUse, the new
    /// entry is returned, and the table is unchanged. It takes no memory.
    pub fn put(&mut self, fid: u32, entry: FidEntry) -> Result<(), (FidFault, FidEntry)>
        requires room { 0 < self.old.room }
        requires named { fid ≢ NOFID }
        ensures in_use { IsErr result ↔ IsSome (fid_at self.old fid) }
        ensures fids { OnOk result (self.new.fids ≡ insert self.old.fids fid entry) }
        ensures given_back { IfErr result (λ refused. refused ≡ (FidFault.InUse, entry)) }
        ensures unchanged { OnErr result (self.new ≡ self.old) }
        ensures room { self.old.room ≤ self.new.room + 1 }
    {
        if self.entry_of(fid).is_some() {
            return Err((FidFault::InUse, entry));
        }
        let is_open = entry.as_opened().is_some();
        match self.fids.insert(fid, Slot::new(entry)) {
            Ok(_) => {}
            // the caller has reserved the memory: `room`
            Err(_) => unreachable!(),
        }
        if is_open {
            add_open_fid(&mut self.opens, fid);
        }
        Ok(())
    }

    /// Removes the fid, open or not, and returns its entry. If the table has no such fid, the error
    /// is Unknown and the table is unchanged. An open of the fid stays open in its run: the caller
    /// must close it.
    pub fn take_any(&mut self, fid: u32) -> Result<FidEntry, FidFault>
        ensures value { result ≡ ok_or (fid_at self.old fid) FidFault.Unknown }
        ensures fids { OnOk result (self.new.fids ≡ remove self.old.fids fid) }
        ensures unchanged { OnErr result (self.new ≡ self.old) }
        ensures room { self.old.room ≤ self.new.room }
    {
        if self.entry_of(fid).is_none() {
            return Err(FidFault::Unknown);
        }
        let Some(slot) = self.fids.swap_remove(&fid) else {
            // `entry_of` found the fid
            unreachable!();
        };
        let entry = slot.into_entry();
        if entry.as_opened().is_some() {
            remove_open_fid(&mut self.opens, fid);
        }
        Ok(entry)
    }

    /// Removes the fid if it isn't open, and returns it. The error is Unknown if the table has no
    /// such fid, AlreadyOpen if the fid is open; then the table is unchanged.
    pub fn take_walked(&mut self, fid: u32) -> Result<Fid<Walked>, FidFault>
        ensures value { result ≡ walked_in (fid_at self.old fid) }
        ensures fids { OnOk result (self.new.fids ≡ remove self.old.fids fid) }
        ensures unchanged { OnErr result (self.new ≡ self.old) }
        ensures room { self.old.room ≤ self.new.room }
    {
        match self.entry_of(fid) {
            None => return Err(FidFault::Unknown),
            Some(FidEntry::Opened(_)) => return Err(FidFault::AlreadyOpen),
            Some(FidEntry::Walked(_)) => {}
        }
        match self.take_any(fid) {
            Ok(FidEntry::Walked(walked)) => Ok(walked),
            // the match above found the fid, and it isn't open
            Ok(FidEntry::Opened(_)) => unreachable!(),
            Err(_) => unreachable!(),
        }
    }

    /// Lends the fid if it is open. The error is Unknown if the table has no such fid, NotOpen if
    /// the fid isn't open.
    pub fn get_opened(&self, fid: u32) -> Result<&Fid<Opened>, FidFault>
        ensures { MatchResult result (λ found. opened_in (fid_at self.now fid) ≡ Ok found.now)
            (λ fault. opened_in (fid_at self.now fid) ≡ Err fault) }
    {
        match self.entry_of(fid) {
            None => Err(FidFault::Unknown),
            Some(FidEntry::Walked(_)) => Err(FidFault::NotOpen),
            Some(FidEntry::Opened(open)) => Ok(open),
        }
    }

    /// Marks the fid as open in this mode; `open_number` is the number that its run gave to the
    /// open. The error is Unknown if the table has no such fid, AlreadyOpen if the fid is open;
    /// then the table is unchanged. It takes no memory.
    pub fn open(&mut self, fid: u32, mode: u8, open_number: u32) -> Result<(), FidFault>
        ensures faults { FailsAs result (walked_in (fid_at self.old fid)) }
        ensures fids { IfOk (walked_in (fid_at self.old fid))
            (λ walked. self.new.fids
            ≡ insert self.old.fids fid (FidEntry.Opened (opened_fid walked mode open_number))) }
        ensures unchanged { OnErr result (self.new ≡ self.old) }
        ensures room { self.new.room ≡ self.old.room }
    {
        let Some(slot) = self.fids.get_mut(&fid) else {
            return Err(FidFault::Unknown);
        };
        slot.open(mode, open_number)?;
        // `opens` has room for as many numbers as there are fids
        add_open_fid(&mut self.opens, fid);
        Ok(())
    }

    /// Moves the fid to the file of this number in its run. The error is Unknown if the table has
    /// no such fid, AlreadyOpen if the fid is open; then the table is unchanged. It takes no
    /// memory.
    pub fn move_to(&mut self, fid: u32, number: u64) -> Result<(), FidFault>
        ensures faults { FailsAs result (walked_in (fid_at self.old fid)) }
        ensures fids { IfOk (walked_in (fid_at self.old fid))
            (λ walked. self.new.fids
            ≡ insert self.old.fids fid (FidEntry.Walked (moved_to walked number))) }
        ensures unchanged { OnErr result (self.new ≡ self.old) }
        ensures room { self.new.room ≡ self.old.room }
    {
        let Some(slot) = self.fids.get_mut(&fid) else {
            return Err(FidFault::Unknown);
        };
        slot.move_to(number)
    }

    /// Sets the place at which the open fid's reads of a directory continue. The error is Unknown
    /// if the table has no such fid, NotOpen if the fid isn't open; then the table is unchanged and
    /// the new place dropped. It takes no memory.
    pub fn set_place(&mut self, fid: u32, place: Place) -> Result<(), FidFault>
        ensures faults { FailsAs result (opened_in (fid_at self.old fid)) }
        ensures fids { IfOk (opened_in (fid_at self.old fid))
            (λ found. self.new.fids
            ≡ insert self.old.fids fid (FidEntry.Opened (with_place found place))) }
        ensures unchanged { OnErr result (self.new ≡ self.old) }
        ensures room { self.new.room ≡ self.old.room }
    {
        let Some(slot) = self.fids.get_mut(&fid) else {
            return Err(FidFault::Unknown);
        };
        slot.set_place(place)
    }

    /// Removes every fid, open or not. The reserved memory stays reserved. Opens stay open in their
    /// runs: the caller must close them first.
    pub fn clear(&mut self)
        ensures fids { self.new.fids ≡ empty }
        ensures room { self.old.room ≤ self.new.room }
    {
        self.fids.clear();
        self.opens.clear();
    }
}

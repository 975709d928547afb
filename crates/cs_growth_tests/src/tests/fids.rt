//! The calls of a table of fids.

use super::rows::{Row, expect_swept};
use super::start::user;
use cs_fids::{Fid, FidEntry, FidFault, FidTable, Place, Walked};
use cs_names::Name;
use cs_test_memory::{End, Subject};
use std::alloc::Global;

#[derive(Clone, Copy)]
enum Call {
    CloneFid,
    ClonePlace,
    /// Room for one more fid in a table of so many.
    Reserve(u32),
}

/// A table, a fid, and a place in a directory.
#[derive(Drop)]
struct Kept {
    table: FidTable,
    fid: Fid<Walked>,
    place: Place,
}

fn fid(alloc: Global, number: u64) -> Option<Fid<Walked>> {
    Some(Fid::new(1, 2, number, user(alloc, b"ann")?))
}

/// Makes a fid of each number below the count.
fn put_each(alloc: Global, table: &mut FidTable, count: u32) -> Option<()> {
    for number in 0..count {
        table.reserve().ok()?;
        if !table.has_room() || number == u32::MAX {
            return None;
        }
        let entry = FidEntry::Walked(fid(alloc, u64::from(number))?);
        table.put(number, entry).ok()?;
    }
    Some(())
}

/// The end of a call that fails only if memory runs out.
fn answered<T: Drop, E: Drop>(answer: Result<T, E>) -> Option<End<()>> {
    match answer {
        Ok(_) => Some(End::Done(())),
        Err(_) => Some(End::Short),
    }
}

fn reserve(table: &mut FidTable) -> Option<End<()>> {
    match table.reserve() {
        Ok(()) => {
            if table.has_room() {
                Some(End::Done(()))
            } else {
                None
            }
        }
        Err(FidFault::Memory) => Some(End::Short),
        Err(_) => None,
    }
}

impl Subject for Kept {
    type Row = Row<Call>;

    type Answer = ();

    fn start(alloc: Global, row: &Row<Call>) -> Option<Kept> {
        let mut table = FidTable::new(alloc);
        if let Call::Reserve(count) = row.1 {
            put_each(alloc, &mut table, count)?;
        }
        let last = Some(Name::read(alloc, b"f").ok()?);
        Some(Kept {
            table,
            fid: fid(alloc, 3)?,
            place: Place { end: 61, last },
        })
    }

    fn call(&mut self, _alloc: Global, row: &Row<Call>) -> Option<End<()>> {
        match row.1 {
            Call::CloneFid => answered(self.fid.try_clone()),
            Call::ClonePlace => answered(self.place.try_clone()),
            Call::Reserve(_) => reserve(&mut self.table),
        }
    }

    fn push(_answer: (), _said: &mut String) -> Option<()> {
        Some(())
    }

    fn tell(&mut self, _alloc: Global, told: &mut String) -> Option<()> {
        write!(told, "{} fids", self.table.len()).ok()?;
        for number in 0..16u32 {
            let entry = self.table.entry_of(number);
            write!(told, " {entry:?}").ok()?;
        }
        write!(told, " {:?} {:?}", self.fid, self.place).ok()
    }

    fn spent(_row: &Row<Call>, _said: &str) -> Option<bool> {
        None
    }
}

const ROWS: [Row<Call>; 5] = [
    Row("cs_fids Fid::try_clone", Call::CloneFid),
    Row("cs_fids Place::try_clone", Call::ClonePlace),
    Row("cs_fids FidTable::reserve", Call::Reserve(0)),
    Row("cs_fids FidTable::reserve", Call::Reserve(4)),
    Row("cs_fids FidTable::reserve", Call::Reserve(16)),
];

/// A copy of a fid and of a place; room for one more fid next to 0, 4 and 16.
#[test]
fn a_table_of_fids_stays_as_it_was(rt: HostRuntime) {
    expect_swept::<Call, Kept>(&rt, &ROWS);
}

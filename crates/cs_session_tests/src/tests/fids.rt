//! Examples of fids and of a connection's table of them.
use cs_fids::{Fid, FidEntry, FidFault, FidTable, NOFID, Place, Walked};
use cs_names::{Name, UserName};
use std::process::Abort;

/// A fid of ann's for that file, in the run at place 2 by the pass at place 5.
fn fid_of(rt: &(impl Abort + AllocGlobal), number: u64) -> Fid<Walked> {
    let user = UserName::read(rt.alloc(), b"ann").expect(rt, "memory");
    Fid::new(2, 5, number, user)
}

/// Puts a fid for that file, with the room made for it.
fn put(rt: &(impl Abort + AllocGlobal), table: &mut FidTable, fid: u32, number: u64) {
    let walked = fid_of(rt, number);
    table.reserve().expect(rt, "room");
    assert!(rt; table.has_room() && fid != NOFID);
    assert!(rt; table.put(fid, FidEntry::Walked(walked)).is_ok());
}

/// A table in which fid 1 was walked to file 10, and fid 2 to file 20 and opened.
fn table_of_two(rt: &(impl Abort + AllocGlobal)) -> FidTable {
    let mut table = FidTable::new(rt.alloc());
    put(rt, &mut table, 1, 10);
    put(rt, &mut table, 2, 20);
    table.open(2, 0, 4).expect(rt, "an open");
    table
}

/// The number of the fid's file.
fn number_at(table: &FidTable, fid: u32) -> Option<u64> {
    Some(table.entry_of(fid)?.number())
}

/// ann's fid of file 1 moves to file 7 and is opened in mode 0x41 by the open 12: run 2, pass 5 and
/// file 7 stay.
#[test]
fn moves_a_fid_and_opens_it(rt: HostRuntime) {
    let walked = fid_of(&rt, 1).try_clone().expect(&rt, "memory").moved_to(7);
    assert!(rt; walked.run() == 2 && walked.pass() == 5 && walked.number() == 7);
    assert!(rt; walked.user().as_str() == "ann");
    let opened = walked.open(0x41, 12);
    assert!(rt; opened.mode() == 0x41 && opened.open_number() == 12 && opened.number() == 7);
}

/// Checks the run, the pass, the file and the user of an entry.
fn expect_entry(rt: &impl Abort, entry: &FidEntry, number: u64) {
    assert!(rt; entry.run() == 2 && entry.pass() == 5 && entry.number() == number);
    assert!(rt; entry.user().as_str() == "ann");
}

/// An entry that is walked to and one that is open have the same run, pass, file and user, and each
/// is only what it is.
#[test]
fn has_the_fields_of_an_entry_whatever_its_state(rt: HostRuntime) {
    let walked = FidEntry::Walked(fid_of(&rt, 3));
    expect_entry(&rt, &walked, 3);
    assert!(rt; walked.as_walked().is_some() && walked.as_opened().is_none());
    let opened = FidEntry::Opened(fid_of(&rt, 4).open(1, 0));
    expect_entry(&rt, &opened, 4);
    assert!(rt; opened.as_walked().is_none() && opened.as_opened().is_some());
}

/// Fid 1 moves from file 10 to file 6 and is opened; fid 2 stays at file 20.
#[test]
fn changes_a_fid_in_its_place(rt: HostRuntime) {
    let mut table = table_of_two(&rt);
    table.move_to(1, 6).expect(&rt, "a move");
    table.open(1, 2, 5).expect(&rt, "an open");
    let opened = table.get_opened(1).expect(&rt, "an open fid");
    assert!(rt; opened.number() == 6 && opened.mode() == 2 && opened.open_number() == 5);
    assert!(rt; number_at(&table, 2) == Some(20));
}

/// A read of fid 2 ended at 61 with the name `s`.
#[test]
fn keeps_the_place_of_a_read(rt: HostRuntime) {
    let mut table = table_of_two(&rt);
    let last = Some(Name::read(rt.alloc(), b"s").expect(&rt, "a name"));
    table
        .set_place(2, Place { end: 61, last })
        .expect(&rt, "an open fid");
    let place = table.get_opened(2).expect(&rt, "an open fid").place();
    let place = place.try_clone().expect(&rt, "memory");
    assert!(rt; place.end == 61 && place.last.is_some());
}

/// Checks the fault if a fid is taken as one that was walked to, opened, or moved.
fn expect_not_walked(rt: &impl Abort, table: &mut FidTable, fid: u32, fault: FidFault) {
    assert!(rt; table.take_walked(fid).err() == Some(fault));
    assert!(rt; table.open(fid, 1, 1) == Err(fault));
    assert!(rt; table.move_to(fid, 1) == Err(fault));
}

/// Numbers 0 and NOFID are Unknown and the open fid 2 is AlreadyOpen, to take, open and move; fid 1
/// can be taken.
#[test]
fn refuses_to_take_or_open_what_was_not_walked_to(rt: HostRuntime) {
    let mut table = table_of_two(&rt);
    expect_not_walked(&rt, &mut table, 0, FidFault::Unknown);
    expect_not_walked(&rt, &mut table, NOFID, FidFault::Unknown);
    expect_not_walked(&rt, &mut table, 2, FidFault::AlreadyOpen);
    assert!(rt; table.take_walked(1).expect(&rt, "a fid").number() == 10);
}

/// Checks the fault if a fid is lent as an open one, or its read goes on.
fn expect_not_open(rt: &impl Abort, table: &mut FidTable, fid: u32, fault: FidFault) {
    assert!(rt; table.set_place(fid, Place::start()) == Err(fault));
    assert!(rt; table.get_opened(fid).err() == Some(fault));
}

/// Number 0 is Unknown and fid 1 is NotOpen, to lend and to go on reading.
#[test]
fn refuses_to_read_on_if_no_fid_is_open(rt: HostRuntime) {
    let mut table = table_of_two(&rt);
    expect_not_open(&rt, &mut table, 0, FidFault::Unknown);
    expect_not_open(&rt, &mut table, 1, FidFault::NotOpen);
}

/// Takes a fid of this file; a second time it is refused.
fn expect_taken(rt: &impl Abort, table: &mut FidTable, fid: u32, number: u64) {
    assert!(rt; table.take_any(fid).expect(rt, "a fid").number() == number);
    assert!(rt; table.take_any(fid).is_err());
}

/// Fids 1 and 2 can be taken once, and not twice.
#[test]
fn takes_a_fid_in_any_state_once(rt: HostRuntime) {
    let mut table = table_of_two(&rt);
    expect_taken(&rt, &mut table, 1, 10);
    expect_taken(&rt, &mut table, 2, 20);
}

/// A fid of file 30 put at 1 is InUse and comes back; 1 is still the fid of file 10.
#[test]
fn gives_a_fid_back_if_its_number_is_taken(rt: HostRuntime) {
    let mut table = table_of_two(&rt);
    let walked = fid_of(&rt, 30);
    table.reserve().expect(&rt, "room");
    let refused = table.put(1, FidEntry::Walked(walked)).err();
    let (fault, entry) = refused.expect(&rt, "a refusal");
    assert!(rt; fault == FidFault::InUse && entry.number() == 30);
    assert!(rt; number_at(&table, 1) == Some(10));
}

/// A table in which fids 9, 1, 7 and 3 were walked to.
fn table_of_four(rt: &(impl Abort + AllocGlobal)) -> FidTable {
    let mut table = FidTable::new(rt.alloc());
    put(rt, &mut table, 9, 0);
    put(rt, &mut table, 1, 0);
    put(rt, &mut table, 7, 0);
    put(rt, &mut table, 3, 0);
    table
}

/// Opens the fid, under its own number, and checks which open one is then the least.
fn expect_after_open(rt: &impl Abort, table: &mut FidTable, fid: u32, least: u32) {
    table.open(fid, 0, fid).expect(rt, "an open");
    assert!(rt; table.least_open() == Some(least));
}

/// Takes the fid out, and checks which open one is then the least.
fn expect_after_take(rt: &impl Abort, table: &mut FidTable, fid: u32, least: u32) {
    assert!(rt; table.take_any(fid).is_ok());
    assert!(rt; table.least_open() == Some(least));
}

/// Of 9, 1, 7 and 3 none is open; after the opens of 7, 3 and 9 the least is 7, 3 and 3.
#[test]
fn finds_the_least_open_fid(rt: HostRuntime) {
    let mut table = table_of_four(&rt);
    assert!(rt; table.least_open().is_none());
    expect_after_open(&rt, &mut table, 7, 7);
    expect_after_open(&rt, &mut table, 3, 3);
    expect_after_open(&rt, &mut table, 9, 3);
}

/// Puts an open fid.
fn put_opened(rt: &(impl Abort + AllocGlobal), table: &mut FidTable, fid: u32) {
    let opened = fid_of(rt, 0).open(0, fid);
    table.reserve().expect(rt, "room");
    assert!(rt; fid != NOFID);
    assert!(rt; table.put(fid, FidEntry::Opened(opened)).is_ok());
}

/// Of 9, 1, 7 and 3 the first and the last are opened, and 5 is put as open: after the takes of 3,
/// 7 and 5 the least is 5, 5 and 9.
#[test]
fn finds_the_next_open_fid_once_the_least_is_taken(rt: HostRuntime) {
    let mut table = table_of_four(&rt);
    expect_after_open(&rt, &mut table, 9, 9);
    expect_after_open(&rt, &mut table, 3, 3);
    put_opened(&rt, &mut table, 5);
    expect_after_take(&rt, &mut table, 3, 5);
    expect_after_take(&rt, &mut table, 7, 5);
    expect_after_take(&rt, &mut table, 5, 9);
    table.clear();
    assert!(rt; table.least_open().is_none() && table.len() == 0);
}

/// 4,096 fids leave no room, and one more is TableFull. Fid 2,000 can be taken, and fid 4,095
/// stays.
#[test]
fn takes_no_more_than_4_096_fids(rt: HostRuntime) {
    let mut table = FidTable::new(rt.alloc());
    for fid in 0..4_096u32 {
        put(&rt, &mut table, fid, u64::from(fid));
    }
    assert!(rt; table.len() == 4_096 && !table.has_room());
    assert!(rt; table.reserve() == Err(FidFault::TableFull));
    assert!(rt; table.take_walked(2_000).expect(&rt, "a fid").number() == 2_000);
    assert!(rt; number_at(&table, 2_000).is_none());
    assert!(rt; number_at(&table, 4_095) == Some(4_095));
}

/// A fault, and what it says.
struct Said(FidFault, &'static str);

const SAID: [Said; 6] = [
    Said(FidFault::TableFull, "fid table full"),
    Said(FidFault::Unknown, "unknown fid"),
    Said(FidFault::AlreadyOpen, "fid is open"),
    Said(FidFault::NotOpen, "fid not open"),
    Said(FidFault::InUse, "fid in use"),
    Said(FidFault::Memory, "out of memory"),
];

/// The six faults in words.
#[test]
fn says_why_a_call_was_refused(rt: HostRuntime) {
    for said in &SAID {
        let text = said.0.to_string(rt.alloc()).expect(&rt, "memory");
        assert!(rt; text.as_str() == said.1, "{text}");
    }
}

//! Writes whose bytes end with a block of the journal's, and begin the next.

use super::side::{Side, call_of, read_of, write_of};
use cs_run::Answer;
use std::alloc::Global;
use std::process::Abort;

/// A write: its offset, and how many bytes of which value.
struct Row(u64, usize, u8);

/// A block's bytes; three of the second; and more than the second has left.
const WRITES: [Row; 3] = [Row(0, 65_536, 1), Row(65_536, 3, 2), Row(65_539, 65_534, 3)];

/// Opens the file, writes, and reads at the border of two writes and at the end of the last.
fn write_and_read(rt: &impl Abort, alloc: Global, side: &mut Side) {
    let _attached = side.step(alloc, call_of(rt, alloc, "attach"));
    let _opened = side.step(alloc, call_of(rt, alloc, "open 66"));
    for row in WRITES.iter() {
        write_row(rt, alloc, side, row);
    }
    let _seam = side.step(alloc, read_of(65_535, 5));
    let _end = side.step(alloc, read_of(131_072, 9));
}

fn write_row(rt: &impl Abort, alloc: Global, side: &mut Side, row: &Row) {
    let bytes = vec![in alloc; row.2; row.1].expect(rt, "memory");
    let _written = side.step(alloc, write_of(rt, alloc, row.0, bytes.as_slice()));
}

/// Whether these bytes were the answer to the call of the entry at that place.
fn reads(rt: &impl Abort, alloc: Global, side: &Side, place: usize, bytes: &[u8]) -> bool {
    match side.answer_at(rt, alloc, place) {
        Answer::Data(data) => data.bytes() == bytes,
        _ => false,
    }
}

/// Writes fill a block of the journal's to the byte, and begin others: a replay reads their bytes
/// again (in `blocks.rt`).
#[test]
fn bytes_at_the_end_of_a_block_are_read_again(rt: HostRuntime) {
    let mut side = Side::new(&rt, rt.alloc());
    write_and_read(&rt, rt.alloc(), &mut side);
    assert!(rt; reads(&rt, rt.alloc(), &side, 5, &[1, 2, 2, 2, 3]));
    assert!(rt; reads(&rt, rt.alloc(), &side, 6, &[3]));
}

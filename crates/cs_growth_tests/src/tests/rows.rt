//! Tables of calls.

use cs_test_memory::{Hoard, Subject, sweep};
use std::process::Abort;

/// A call by its name, and what it is made with.
#[derive(Clone, Copy)]
pub struct Row<C>(pub &'static str, pub C);

/// The least number of bytes that malloc gives.
pub const FEW: usize = 16;

/// Makes the call of each row with its growths refused in turn; it must have at least one.
pub fn expect_swept<C, S: Subject<Row = Row<C>>>(rt: &(impl Abort + AllocGlobal), rows: &[Row<C>]) {
    let mut hoard = Hoard::new(rt.alloc()).expect(rt, "memory");
    for (place, row) in rows.iter().enumerate() {
        let name = row.0;
        match sweep::<S>(rt.alloc(), &mut hoard, row, FEW) {
            Ok(refusals) => assert!(rt; refusals > 0, "{place} {name} meets no growth"),
            Err(fault) => assert!(rt; false, "{place} {name}: {fault:?}"),
        }
    }
}

/// Makes the call of each row, which must need no growth.
pub fn expect_no_growth<C, S: Subject<Row = Row<C>>>(
    rt: &(impl Abort + AllocGlobal),
    rows: &[Row<C>],
) {
    let mut hoard = Hoard::new(rt.alloc()).expect(rt, "memory");
    for (place, row) in rows.iter().enumerate() {
        let name = row.0;
        match sweep::<S>(rt.alloc(), &mut hoard, row, FEW) {
            Ok(refusals) => assert!(rt; refusals == 0, "{place} {name}"),
            Err(fault) => assert!(rt; false, "{place} {name}: {fault:?}"),
        }
    }
}

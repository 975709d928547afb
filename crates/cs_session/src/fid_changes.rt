//! A change of a connection's fids that can't fail.
ghost use Rattle.std.specs.Prelude.{◌≡◌, ◌≢◌, ◌<◌, None};
ghost use Rattle.std.specs.FinMap.{get, insert};

use cs_fids::{Fid, FidEntry, FidTable, NOFID, Walked};

/// Adds `walked`, a fid that isn't open, under the number `fid`, which is free and isn't NOFID. It
/// can't fail: the caller has made room for one more in the table.
pub(crate) fn put_new(fids: &mut FidTable, fid: u32, walked: Fid<Walked>)
    requires room { 0 < fids.old.room }
    requires named { fid ≢ NOFID }
    requires free { get fids.old.fids fid ≡ None }
    ensures { fids.new.fids ≡ insert fids.old.fids fid (FidEntry.Walked walked) }
{
    match fids.put(fid, FidEntry::Walked(walked)) {
        Ok(()) => {}
        // the number is free, and the table has room
        Err(_) => unreachable!(),
    }
}

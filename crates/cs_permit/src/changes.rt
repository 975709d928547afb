//! What a wstat changes (stat(5)): the new value of each field that doesn't say "don't touch" and
//! isn't the present value.
ghost use Rattle.std.specs.Prelude.{◌≡◌, option_copied};
ghost use Rattle.cs_tree_model.specs.Record.{metadata_of_ref};
ghost use Rattle.cs_permit.specs.Changes.{changes_attributes, changes_fixed, new_group, new_length};
ghost use Rattle.cs_permit.specs.Changes.{new_mode, new_mtime, new_name, new_number, new_text};
ghost use Rattle.cs_permit.specs.Changes.{ones_2, ones_4, ones_8, same_qid};

use crate::call::WstatCall;
use crate::shown::{qid_of, shown_length, shown_name};
use cs_tree_model::{Metadata, TreeRead};
use cs_wire::Qid;

/// The new value of a field of two bytes; None for "don't touch" (all ones) and for the present
/// value. `new_u32` and `new_u64` do the same for wider fields.
fn new_u16(present: u16, sent: u16) -> Option<u16>
    ensures { result ≡ new_number ones_2 present sent }
{
    if sent == u16::MAX || sent == present {
        None
    } else {
        Some(sent)
    }
}

/// The new value of a field of four bytes; None for "don't touch" (all ones) and for the present
/// value. (`new_u16` and `new_u64` do the same for other widths.)
fn new_u32(present: u32, sent: u32) -> Option<u32>
    ensures { result ≡ new_number ones_4 present sent }
{
    if sent == u32::MAX || sent == present {
        None
    } else {
        Some(sent)
    }
}

/// The new value of a field of eight bytes; None for "don't touch" (all ones) and for the present
/// value. (`new_u16` and `new_u32` do the same for other widths.)
fn new_u64(present: u64, sent: u64) -> Option<u64>
    ensures { result ≡ new_number ones_8 present sent }
{
    if sent == u64::MAX || sent == present {
        None
    } else {
        Some(sent)
    }
}

/// The new value of a text; None for "don't touch" (an empty text) and for the present value.
fn new_text<'a>(present: &str, sent: &'a str) -> Option<&'a str>
    ensures { option_copied result ≡ new_text present.now sent.now }
{
    if sent == "" || sent == present {
        None
    } else {
        Some(sent)
    }
}

/// The new name; None if the wstat doesn't change the name. The present name of the root, or of a
/// file that is gone, is `/`.
pub fn new_name<'a, T: TreeRead>(tree: &T, call: &'a WstatCall) -> Option<&'a str>
    ensures { option_copied result ≡ new_name (T.tree tree.now) call.now }
{
    new_text(
        shown_name(tree, call.number),
        call.stat.as_stat().name.as_str(),
    )
}

/// The new length; None if the wstat doesn't change the length. The present length of a directory
/// is 0.
pub fn new_length(call: &WstatCall, file: &Metadata) -> Option<u64>
    ensures { result ≡ new_length call.now (metadata_of_ref file.now) }
{
    new_u64(shown_length(file.kind), call.stat.as_stat().length)
}

/// The new mode; None if the wstat doesn't change the mode. The rules accept no new mode with
/// DMSYMLINK, so a symbolic link of the trace becomes a plain file by it.
pub fn new_mode(call: &WstatCall, file: &Metadata) -> Option<u32>
    ensures { result ≡ new_mode call.now (metadata_of_ref file.now) }
{
    new_u32(file.mode, call.stat.as_stat().mode)
}

/// The new mtime in seconds since 1970; None if the wstat doesn't change the mtime.
pub fn new_mtime(call: &WstatCall, file: &Metadata) -> Option<u32>
    ensures { result ≡ new_mtime call.now (metadata_of_ref file.now) }
{
    new_u32(file.mtime, call.stat.as_stat().mtime)
}

/// The new group, from the field gid; None if the wstat doesn't change the group.
pub fn new_group<'a>(call: &'a WstatCall, file: &Metadata) -> Option<&'a str>
    ensures { option_copied result ≡ new_group call.now (metadata_of_ref file.now) }
{
    new_text(file.group.as_str(), call.stat.as_stat().gid.as_str())
}

/// The qid by which a wstat says "don't touch": 13 bytes of ones.
const ONES_QID: Qid = Qid {
    kind: u8::MAX,
    vers: u32::MAX,
    path: u64::MAX,
};

/// Whether two qids have the same kind, version and path.
fn is_same_qid(a: Qid, b: Qid) -> bool
    ensures { result ≡ same_qid a b }
{
    a.kind == b.kind && a.vers == b.vers && a.path == b.path
}

/// Whether the wstat changes a field that no wstat may: type, dev, qid, atime, uid or muid. The
/// present type and dev are 0, as `stat_with` shows them; a qid counts as one value.
pub fn changes_fixed(call: &WstatCall, file: &Metadata) -> bool
    ensures { result ≡ changes_fixed call.now (metadata_of_ref file.now) }
{
    let stat = call.stat.as_stat();
    new_u16(0, stat.kind).is_some()
        || new_u32(0, stat.dev).is_some()
        || !(is_same_qid(stat.qid, ONES_QID) || is_same_qid(stat.qid, qid_of(file)))
        || new_u32(file.atime, stat.atime).is_some()
        || new_text(file.owner.as_str(), stat.uid.as_str()).is_some()
        || new_text(file.muid.as_str(), stat.muid.as_str()).is_some()
}

/// Whether the wstat changes the mode or the mtime.
pub fn changes_attributes(call: &WstatCall, file: &Metadata) -> bool
    ensures { result ≡ changes_attributes call.now (metadata_of_ref file.now) }
{
    new_mode(call, file).is_some() || new_mtime(call, file).is_some()
}

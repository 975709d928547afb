//! Copies and new records, which a store makes before it changes anything, and the test of a
//! record's mode.
ghost use Rattle.std.specs.Prelude.{◌≡◌, ◌≢◌, [], IfOk, IsErr};
ghost use Rattle.cs_tree_model.specs.Effects.{new_content, new_record};
ghost use Rattle.cs_tree_model.specs.Record.{is_marked};

use cs_names::UserName;
use cs_tree_model::{Content, Kind, New, Record, Stamp, is_directory_mode};
use std::alloc::{AllocError, Global};

/// A copy of the bytes. It takes no memory if there are none. The only error is that memory runs
/// out. (`copy_items` of cs_wire does the same for items of any type.)
pub fn try_clone_bytes(alloc: Global, bytes: &[u8]) -> Result<Vec<u8>, AllocError>
    ensures value { IfOk result (λ v. v.items ≡ bytes.now) }
    ensures memory { IsErr result → bytes.now ≢ [] }
{
    if bytes.is_empty() {
        return Ok(Vec::new(alloc));
    }
    Vec::from_slice(alloc, bytes)
}

/// A copy of the name of a user or group; None if there is none. The only error is that memory runs
/// out. (cs_overlay has the same function, private, for its own store.)
pub fn try_clone_user(name: &Option<UserName>) -> Result<Option<UserName>, AllocError>
    ensures { IfOk result (λ again. again ≡ name.now) }
{
    match name {
        Some(name) => Ok(Some(name.try_clone()?)),
        None => Ok(None),
    }
}

/// The record of a new file, or of a new directory if the mode has DMDIR, which the stamp's user
/// made at the stamp's moment: that user is owner and last writer. It has no bytes, and version 0.
/// The only error is that memory runs out.
pub fn new_record(
    alloc: Global,
    number: u64,
    group: UserName,
    new: New,
    stamp: &Stamp,
) -> Result<Record, AllocError>
    ensures { IfOk result (λ file. file ≡ new_record number group new stamp.entry.now) }
{
    let owner = stamp.user.try_clone()?;
    let muid = stamp.user.try_clone()?;
    Ok(Record {
        number,
        vers: 0,
        owner,
        group,
        mode: new.mode,
        atime: stamp.now,
        mtime: stamp.now,
        muid,
        content: new_content(alloc, new.mode),
    })
}

/// The content of a new file: a directory's if the mode has DMDIR, and else a file's without bytes.
fn new_content(alloc: Global, mode: u32) -> Content
    ensures { result ≡ new_content mode }
{
    if is_directory_mode(mode) {
        Content::directory()
    } else {
        Content::file(Vec::new(alloc))
    }
}

/// Whether the record's mode fits its kind: it has DMDIR exactly if the record is a directory's.
pub fn mode_fits_kind(file: &Record) -> bool
    ensures { result ≡ is_marked file.now }
{
    match file.content.kind() {
        Kind::Directory => is_directory_mode(file.mode),
        Kind::File { .. } => !is_directory_mode(file.mode),
    }
}

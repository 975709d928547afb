//! The bytes of the files and symbolic links of a crash state. A symbolic link's bytes are its
//! target. Their owners are in `owners`.
ghost use Rattle.std.specs.Prelude.{◌≡◌, ◌<◌, [], length, unwrap_or, IfOk, slice_index_or};
ghost use Rattle.std.specs.List.{All};
ghost use Rattle.cs_apm.specs.Atlases.{AreChanged, AreMakings, AreStarts, content_before};
ghost use Rattle.cs_apm.specs.Atlases.{content_made, files_left};
ghost use Rattle.cs_apm.specs.Contents.{IsSmall, content_left};
ghost use Rattle.cs_apm.specs.States.{content_of_bytes, files_made, no_content, owners_of};
ghost use Rattle.cs_apm.specs.States.{visible};

use crate::content::FileContent;
use cs_micro::MicroOp;
use cs_trace::Trace;
use cs_tree_model::Content;
use std::alloc::{AllocError, Global};

/// A copy of the bytes of this content; empty if it is a directory's, which has none.
fn copy_bytes(alloc: Global, content: &Content) -> Result<Vec<u8>, AllocError>
    ensures { IfOk result (λ bytes. bytes.items ≡ unwrap_or content.now []) }
{
    match content.try_clone(alloc)?.into_bytes() {
        None => Ok(Vec::new(alloc)),
        Some(bytes) => Ok(bytes),
    }
}

/// The bytes with which the micro-operation makes a symbolic link: its target. Empty if it makes
/// anything else, or nothing: a new file has no bytes. (`bytes_made` of cs_state has the same
/// body.)
fn bytes_made(op: &MicroOp) -> &[u8]
    ensures { content_of_bytes result.now ≡ content_made op.now }
{
    match op {
        MicroOp::CreateDirEntry { bytes, .. } => bytes.as_slice(),
        _ => &[],
    }
}

/// The content, as it is made, of a file or symbolic link that isn't there at the start. `number`
/// counts only such files, from 0. It is empty if no micro-operation makes the file.
fn file_made(
    alloc: Global,
    ops: &[MicroOp],
    makings: &[u32],
    number: usize,
) -> Result<FileContent, AllocError>
    requires { AreMakings ops.now makings.now }
    ensures { IfOk result (λ content. content
        ≡ slice_index_or (files_made ops.now) number no_content) }
{
    match makings.get(number) {
        None => Ok(FileContent::of(Vec::new(alloc))),
        Some(place) => {
            let bytes = bytes_made(&ops[*place as usize]);
            Ok(FileContent::of(Vec::from_slice(alloc, bytes)?))
        }
    }
}

/// The content of the file before any micro-operation changes it: that at the start, or that with
/// which it is made. `starts` and `makings` are those of `Tables`. It is empty if the file is
/// neither there at the start nor made. `start_bytes` of cs_state borrows the same bytes.
fn file_before(
    alloc: Global,
    trace: &Trace,
    ops: &[MicroOp],
    starts: &[u32],
    makings: &[u32],
    file: u32,
) -> Result<FileContent, AllocError>
    requires starts { AreStarts trace.now starts.now }
    requires makings { AreMakings ops.now makings.now }
    ensures { IfOk result (λ content. content ≡ content_before trace.now ops.now file) }
{
    let number = file as usize;
    if number >= starts.len() {
        return file_made(alloc, ops, makings, number - starts.len());
    }
    let content = trace.records().content(starts[number] as usize);
    let bytes = copy_bytes(alloc, content)?;
    Ok(FileContent::of(bytes))
}

/// The content of the file after the members of a set, which are at these places. `starts`,
/// `makings` and `changed` are those of `Tables`. If no micro-operation of the trace changes the
/// file, its content is only copied, without a look at the members.
fn file_left(
    alloc: Global,
    trace: &Trace,
    ops: &[MicroOp],
    starts: &[u32],
    makings: &[u32],
    changed: &[bool],
    places: &[u32],
    file: u32,
) -> Result<FileContent, AllocError>
    requires starts { AreStarts trace.now starts.now }
    requires makings { AreMakings ops.now makings.now }
    requires changed { AreChanged ops.now (length changed.now) changed.now }
    requires known { file < length changed.now }
    requires small { All IsSmall ops.now }
    requires inside { All (λ place. place < length ops.now) places.now }
    ensures { IfOk result (λ content. content
        ≡ content_left file (content_before trace.now ops.now file) ops.now places.now) }
{
    let mut content = file_before(alloc, trace, ops, starts, makings, file)?;
    if changed[file as usize] {
        content.apply_members(file, ops, places)?;
    }
    Ok(content)
}

/// The bytes that a reader of the file gets after the members of a set, which are at these places;
/// hidden ones are left out. `starts`, `makings` and `changed` are those of `Tables`, and `file` is
/// a file or a symbolic link of the trace.
pub fn bytes_left(
    alloc: Global,
    trace: &Trace,
    ops: &[MicroOp],
    starts: &[u32],
    makings: &[u32],
    changed: &[bool],
    places: &[u32],
    file: u32,
) -> Result<Vec<u8>, AllocError>
    requires starts { AreStarts trace.now starts.now }
    requires makings { AreMakings ops.now makings.now }
    requires changed { AreChanged ops.now (length (owners_of trace.now ops.now)) changed.now }
    requires known { file < length changed.now }
    requires small { All IsSmall ops.now }
    requires inside { All (λ place. place < length ops.now) places.now }
    ensures { IfOk result (λ bytes. bytes.items
        ≡ visible (slice_index_or (files_left trace.now ops.now places.now) file no_content)) }
{
    let content = file_left(alloc, trace, ops, starts, makings, changed, places, file)?;
    let bytes = content.into_visible()?;
    Ok(bytes)
}

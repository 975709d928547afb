//! Which micro-operations change each file of a trace, and in which blocks. This is for digests
//! only: a wrong digest costs time, never an answer, so nothing here has a contract. A number out
//! of range is skipped. After an error the caller drops what it has so far. The blocks that are
//! read are those that some micro-operation of the trace writes into or ends a file in.
use crate::mixing::{digest_of_metadata, digest_of_rights};
use cs_entries::Node;
use cs_micro::MicroOp;
use cs_trace::{BlockSize, Target, Trace};
use cs_tree_model::Kind;
use std::alloc::{AllocError, Global};

/// What a micro-operation does to a file.
#[derive(Clone, Copy, Debug)]
pub enum FileChange {
    /// The file gets this length, in bytes.
    Size(u64),
    /// Bytes are written into one block of the file: the one at this place among the blocks that
    /// are read.
    Write(usize),
    /// Owner, group and permissions with this digest are set.
    Rights(u64),
}

/// A file of the trace, with what the micro-operations do to it.
#[derive(Debug, Drop)]
pub struct File {
    /// The digest of its owner, group and permissions at the start, or as it is made.
    pub rights: u64,
    /// How many bytes it has at the start, or as it is made.
    pub length: u64,
    /// The place of each micro-operation that changes it, and the change, in the order of places.
    pub changes: Vec<(u32, FileChange)>,
    /// If no micro-operation changes it: its digest, once that is computed. None before, and for
    /// any other file.
    pub unchanged: Option<u64>,
}

/// The number, in its file, of the block into which the micro-operation writes, or in which it ends
/// a file; None if it does neither.
fn changed_block(size: BlockSize, op: &MicroOp) -> Option<u64> {
    match op {
        MicroOp::WriteBlock { block, .. } => Some(*block),
        MicroOp::ChangeFileSize { length, .. } => Some(*length / size.bytes()),
        _ => None,
    }
}

/// The numbers of the blocks into which some micro-operation writes or in which it ends a file:
/// those of all files in one list, ascending and each once.
pub fn blocks_of(alloc: Global, size: BlockSize, ops: &[MicroOp]) -> Result<Vec<u64>, AllocError> {
    let mut blocks = Vec::new(alloc);
    for op in ops {
        if let Some(block) = changed_block(size, op) {
            blocks.push(block)?;
        }
    }
    blocks.sort_unstable();
    blocks.dedup();
    Ok(blocks)
}

/// Appends a file of this length whose rights have this digest, without changes.
fn push_file(
    alloc: Global,
    files: &mut Vec<File>,
    rights: u64,
    length: u64,
) -> Result<(), AllocError> {
    files.push(File {
        rights,
        length,
        changes: Vec::new(alloc),
        unchanged: None,
    })?;
    Ok(())
}

/// Appends the file that the micro-operation at this place makes, or adds its change to the file
/// that it changes. If it does neither, nothing changes; nor if it writes into a block that isn't
/// one of `blocks`, which has each block that `changed_block` returns.
fn push_change(
    alloc: Global,
    files: &mut Vec<File>,
    blocks: &[u64],
    place: u32,
    op: &MicroOp,
) -> Result<(), AllocError> {
    let (file, change) = match op {
        MicroOp::CreateDirEntry {
            node: Node::File(..),
            rights,
            bytes,
            ..
        } => {
            let length = bytes.as_slice().len() as u64;
            return push_file(alloc, files, digest_of_rights(rights), length);
        }
        MicroOp::ChangeFileSize { file, length } => (*file, FileChange::Size(*length)),
        MicroOp::SetAttr {
            target: Target::File(file),
            rights,
        } => (*file, FileChange::Rights(digest_of_rights(rights))),
        MicroOp::WriteBlock { file, block, .. } => {
            let Some(index) = blocks.iter().position(|other| *other == *block) else {
                return Ok(());
            };
            (*file, FileChange::Write(index))
        }
        _ => return Ok(()),
    };
    if let Some(file) = files.get_mut(file as usize) {
        file.changes.push((place, change))?;
    }
    Ok(())
}

/// The length of a file in bytes; 0 for a directory. (`size_of` of cs_tar has the same body.)
fn length_of(kind: Kind) -> u64 {
    match kind {
        Kind::Directory => 0,
        Kind::File { length } => length,
    }
}

/// The files at the start, by their numbers, with their lengths and the digests of their rights,
/// and no changes yet. Both are 0 for a file without a record; in a trace each file has one.
fn start_files(alloc: Global, trace: &Trace) -> Result<Vec<File>, AllocError> {
    let mut files = Vec::new(alloc);
    for _ in 0..trace.file_count() {
        push_file(alloc, &mut files, 0, 0)?;
    }
    let records = trace.records();
    for (place, node) in trace.nodes().iter().enumerate() {
        if let Node::File(_, number) = node {
            if let Some(file) = files.get_mut(*number as usize) {
                let metadata = records.metadata(place);
                file.length = length_of(metadata.kind);
                file.rights = digest_of_metadata(&metadata);
            }
        }
    }
    Ok(files)
}

/// All files of the trace, by their numbers, those of the start first, each with the changes that
/// micro-operations make to it. `blocks` has the numbers of the blocks that are read, as
/// `blocks_of` returns them.
pub fn files_of(
    alloc: Global,
    trace: &Trace,
    ops: &[MicroOp],
    blocks: &[u64],
) -> Result<Vec<File>, AllocError> {
    let mut files = start_files(alloc, trace)?;
    let mut place = 0u32;
    for op in ops {
        push_change(alloc, &mut files, blocks, place, op)?;
        // A trace has few micro-operations, so this doesn't saturate.
        place = place.saturating_add(1);
    }
    Ok(files)
}

//! Digests of the files of a state: of their bytes and their rights (owner, group, permissions).
//! Only those blocks of a file are read that some micro-operation writes into, or ends a file in. A
//! wrong digest costs time, never an answer, so nothing here has a contract: a file out of range,
//! or one that isn't there, has the digest 0, and a place out of range is no member.
use crate::changes::{File, FileChange, blocks_of, files_of};
use crate::entries::VaryingEntries;
use crate::mixing::{digest_of_bytes, mix};
use crate::parts::Parts;
use cs_plan::{MakeFault, Scene};
use cs_trace::BlockSize;
use cs_tree_model::{TreeRead, number_of_path};
use std::alloc::{AllocError, Global};
use std::collections::BTreeMap;
use std::sync::Arc;

/// What decides the bytes of a block of a file in a state: the last member that writes into it, the
/// last that makes the file shorter than the block's end, and where the block ends. Earlier writes
/// and changes of size are members too, since these need them (P1). In states with equal versions
/// of a block its bytes are equal, so it is read once for all of them.
#[derive(Clone, Copy, Debug, PartialEq, Eq, PartialOrd, Ord)]
struct BlockVersion {
    /// The number of the file.
    file: u32,
    /// The number of the block in the file.
    block: u64,
    /// The place of the last member that writes into the block; None if none does.
    write: Option<u32>,
    /// The place of the last member that makes the file shorter than the block's end; None if none
    /// does.
    cut: Option<u32>,
    /// The offset in the file at which the block ends, or the file, if that is before.
    end: u64,
}

/// A member that changes the size of a file, to a smaller or a greater one.
#[derive(Clone, Copy, Debug)]
struct Cut {
    /// Its place.
    place: u32,
    /// The size that it gives the file, in bytes.
    length: u64,
}

/// A file as a state's members leave it.
#[derive(Debug, Drop)]
struct FileLeft {
    /// The digest of owner, group and permissions.
    rights: u64,
    /// The size, in bytes.
    length: u64,
    /// The changes of its size, without those followed by one to the same or a smaller size; so the
    /// lengths ascend.
    cuts: Vec<Cut>,
    /// For each of the blocks that are read, the place of the last member that writes into it; None
    /// if none does.
    writes: Vec<Option<u32>>,
}

/// A file of a state, with one of its entries.
#[derive(Clone, Copy)]
pub struct FileOfState<'a> {
    /// The scene whose state it is.
    pub scene: &'a Arc<Scene>,
    /// The state's number in the scene's plan.
    pub number: u32,
    /// The parts of the scene's trace.
    pub parts: &'a Parts,
    /// The entries; this state is the one that was noted last.
    pub entries: &'a VaryingEntries,
    /// The place of an entry that holds the file.
    pub place: u32,
    /// The file's number in the trace.
    pub file: u32,
}

/// The files of a trace, with the digests of blocks that were read so far.
#[derive(Drop)]
pub struct Contents {
    /// The files, by their numbers.
    files: Vec<File>,
    /// The size of a block, as the trace's header says.
    block_size: BlockSize,
    /// The numbers of the blocks that are read, in ascending order.
    blocks: Vec<u64>,
    /// The digests of the blocks that were read so far.
    digests: BTreeMap<BlockVersion, u64>,
}

/// The file after those of its changes that members make. `block_count` is how many blocks are
/// read, of all files together.
fn file_after(
    alloc: Global,
    file: &File,
    members: &[bool],
    block_count: usize,
) -> Result<FileLeft, AllocError> {
    let mut left = FileLeft {
        rights: file.rights,
        length: file.length,
        cuts: Vec::new(alloc),
        writes: vec![in alloc; None; block_count]?,
    };
    for (place, change) in &file.changes {
        // A place out of range is no member.
        if members.get(*place as usize).copied().unwrap_or(false) {
            left.apply(*place, *change)?;
        }
    }
    Ok(left)
}

/// Whether the change of size makes the file shorter than `end`.
fn is_below(cut: &Cut, end: u64) -> bool {
    cut.length < end
}

impl FileLeft {
    /// Applies a change that the member at this place makes. After an error a change of size is
    /// half made, so the file must not be used. Callers pass only writes into blocks that are read.
    fn apply(&mut self, place: u32, change: FileChange) -> Result<(), AllocError> {
        match change {
            FileChange::Rights(rights) => self.rights = rights,
            FileChange::Size(length) => {
                self.length = length;
                let kept = self.cuts.partition_point(|cut| is_below(cut, length));
                self.cuts.truncate(kept);
                self.cuts.push(Cut { place, length })?;
            }
            FileChange::Write(index) => {
                // The index is that of a block that is read, so it isn't out of range.
                if let Some(write) = self.writes.get_mut(index) {
                    *write = Some(place);
                }
            }
        }
        Ok(())
    }

    /// The place of the last member that makes the file shorter than `end`; None if none does.
    fn cut_below(&self, end: u64) -> Option<u32> {
        let count = self.cuts.partition_point(|cut| is_below(cut, end));
        let last = count.checked_sub(1)?;
        let cut = self.cuts.get(last)?;
        Some(cut.place)
    }
}

/// Makes the state, reads a block of its file, and returns the digest of the block's bytes. `block`
/// is the block's number in the file. 0 if the plan has no such state, or if the state has no file
/// at the entry's path.
fn read_block_digest(
    alloc: Global,
    size: BlockSize,
    state_file: FileOfState<'_>,
    block: u64,
) -> Result<u64, AllocError> {
    let made = match Scene::make(alloc, state_file.scene, state_file.number) {
        Ok(made) => made,
        Err(MakeFault::Memory) => return Err(AllocError),
        Err(MakeFault::NoSuchState) => return Ok(0),
    };
    let store = made.store();
    let path = state_file
        .entries
        .path_of(alloc, state_file.parts, state_file.place)?;
    let Some(number) = number_of_path(store, path.names()) else {
        return Ok(0);
    };
    // The block begins within the file, so this doesn't wrap.
    let offset = block.wrapping_mul(size.bytes());
    match store.read_at(alloc, number, offset, size.bytes() as usize)? {
        Some(bytes) => Ok(digest_of_bytes(&bytes)),
        None => Ok(0),
    }
}

impl Contents {
    /// The files of a scene's trace, with no block read yet.
    pub fn of(alloc: Global, scene: &Scene) -> Result<Contents, AllocError> {
        let ops = scene.micros().ops();
        let block_size = scene.trace().version().block_size();
        let blocks = blocks_of(alloc, block_size, ops)?;
        Ok(Contents {
            files: files_of(alloc, scene.trace(), ops, &blocks)?,
            block_size,
            blocks,
            digests: BTreeMap::new(alloc),
        })
    }

    /// The digest of a block of a file in this version. The block is read only the first time; then
    /// its digest is kept. After an error no new digest is kept, and the older ones stay.
    fn block_digest(
        &mut self,
        alloc: Global,
        state_file: FileOfState<'_>,
        version: BlockVersion,
    ) -> Result<u64, AllocError> {
        if let Some(digest) = self.digests.get(&version) {
            return Ok(*digest);
        }
        let digest = read_block_digest(alloc, self.block_size, state_file, version.block)?;
        self.digests.insert(version, digest)?;
        Ok(digest)
    }

    /// Keeps the digest of a file that no micro-operation changes, for all later states. If there
    /// is no file with the number, nothing changes; callers pass files of the trace.
    fn keep_unchanged(&mut self, file: u32, digest: u64) {
        if let Some(kept) = self.files.get_mut(file as usize) {
            kept.unchanged = Some(digest);
        }
    }

    /// The digest of the bytes and rights of a file of the state with these members. 0 if the trace
    /// has no file with that number. After an error the digests of the blocks that were read stay
    /// kept.
    pub fn digest_of_file(
        &mut self,
        alloc: Global,
        state_file: FileOfState<'_>,
        members: &[bool],
    ) -> Result<u64, AllocError> {
        let Some(file) = self.files.get(state_file.file as usize) else {
            return Ok(0);
        };
        if let Some(digest) = file.unchanged {
            return Ok(digest);
        }
        let is_unchanged = file.changes.is_empty();
        let left = file_after(alloc, file, members, self.blocks.len())?;
        let size = self.block_size.bytes();
        let mut digest = mix(left.rights, left.length);
        for (index, write) in left.writes.iter().enumerate() {
            // There are as many writes as blocks, so no index is out of range.
            let block = self.blocks.get(index).copied().unwrap_or(0);
            if block <= left.length / size {
                // The block begins within the file, so this doesn't saturate.
                let end = block.saturating_add(1).saturating_mul(size);
                let version = BlockVersion {
                    file: state_file.file,
                    block,
                    write: *write,
                    cut: left.cut_below(end),
                    end: left.length.min(end),
                };
                digest = mix(digest, self.block_digest(alloc, state_file, version)?);
            }
        }
        if is_unchanged {
            self.keep_unchanged(state_file.file, digest);
        }
        Ok(digest)
    }
}

//! The digest of a state, a number: states with equal trees have the same digest. It is computed
//! from the paths of entries, and not from the numbers of their directories: two states may have
//! equal trees with different directories. A wrong digest costs time, never an answer, so nothing
//! here has a contract: trees are compared before two states are called equal.
use crate::contents::{Contents, FileOfState};
use crate::entries::{DirectoryRights, VaryingEntries};
use crate::mixing::mix;
use crate::parts::Parts;
use cs_entries::{FileKind, Node};
use cs_plan::Scene;
use std::alloc::{AllocError, Global};
use std::sync::Arc;

/// What the digests of a trace's states are computed from.
#[derive(Drop)]
pub struct Digests {
    /// The entries at which states may differ, with their paths in one state.
    entries: VaryingEntries,
    /// The digests of the rights of directories in one state.
    rights: DirectoryRights,
    /// The files, with the digests that are kept.
    contents: Contents,
}

/// A number by which digests of regular files and of symbolic links differ: 2 and 3. Directories
/// have 1.
fn kind_number(kind: FileKind) -> u64 {
    match kind {
        FileKind::Regular => 2,
        FileKind::Symlink => 3,
    }
}

impl Digests {
    /// What the digests of this scene's states are computed from. `parts` are those of its trace.
    /// No digest is computed yet.
    pub fn of(alloc: Global, scene: &Scene, parts: &Parts) -> Result<Digests, AllocError> {
        let ops = scene.micros().ops();
        Ok(Digests {
            entries: VaryingEntries::of(alloc, parts, ops)?,
            rights: DirectoryRights::of(alloc, parts, ops)?,
            contents: Contents::of(alloc, scene)?,
        })
    }

    /// The digest of the state with this number, which has these members. The scene and the parts
    /// must be those that `of` was given. The digest is the sum of those of the paths at which
    /// states may differ, each with what is there; so it doesn't depend on their order. The time is
    /// in proportion to these paths and to the blocks that operations write. Digests of blocks are
    /// kept for later states, also after an error.
    pub fn digest_of_state(
        &mut self,
        alloc: Global,
        scene: &Arc<Scene>,
        parts: &Parts,
        number: u32,
        members: &[bool],
    ) -> Result<u64, AllocError> {
        self.rights.note(members);
        let held = self.entries.held(alloc, parts, members)?;
        // The root has no entry.
        let mut sum = self.rights.digest_of(0);
        for (place, node) in &held {
            let path = self.entries.digest_of_path(parts, *place);
            let part = match *node {
                Node::Directory(directory) => mix(mix(path, 1), self.rights.digest_of(directory)),
                Node::File(kind, file) => {
                    let state_file = FileOfState {
                        scene,
                        number,
                        parts,
                        entries: &self.entries,
                        place: *place,
                        file,
                    };
                    let content = self.contents.digest_of_file(alloc, state_file, members)?;
                    mix(mix(path, kind_number(kind)), content)
                }
            };
            sum = sum.wrapping_add(part);
        }
        Ok(sum)
    }
}

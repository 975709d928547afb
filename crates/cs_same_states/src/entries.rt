//! The entries at which the states of a trace differ, and their paths in a state. This is for
//! digests only: a wrong digest costs time, never an answer, so nothing here has a contract. What
//! is out of range is skipped.
use crate::mixing::{digest_of_bytes, digest_of_rights, mix};
use crate::parts::Parts;
use cs_apm::slot::Step;
use cs_entries::Node;
use cs_micro::MicroOp;
use cs_names::Path;
use cs_trace::Target;
use std::alloc::{AllocError, Global};

/// The entries at which states may differ: those that some micro-operation touches; and of the
/// others those that may be at different paths, or hold a file or a directory that one changes. Any
/// other entry holds the same at the same path in every state, so digests leave it out.
#[derive(Debug, Drop)]
pub struct VaryingEntries {
    /// The places, among all entries of the tables, of those of these entries that no
    /// micro-operation touches.
    untouched: Vec<u32>,
    /// For each entry of the tables, the digest of its name.
    names: Vec<u64>,
    /// For each directory, the place of the entry that it has in the state that was noted last (by
    /// `held`). Of the root, and of a directory that this state doesn't have, it means nothing.
    homes: Vec<u32>,
}

/// Which files and directories some micro-operation changes, by their numbers.
#[derive(Drop)]
struct Changed {
    /// Of files: their size, bytes, owner, group or permissions.
    files: Vec<bool>,
    /// Of directories: their owner, group and permissions; not what is in them.
    directories: Vec<bool>,
}

/// Sets the flag with this number. If there is none, nothing changes. (`set_slot`, `set_digest` and
/// the body of `note_home` do the same with another value.)
fn set_flag(flags: &mut [bool], number: u32) {
    if let Some(flag) = flags.get_mut(number as usize) {
        *flag = true;
    }
}

/// The flag with this number; false if there is none. (`flag_at` of `slots` and `is_member` of
/// cs_state do the same.)
fn flag_at(flags: &[bool], number: u32) -> bool {
    flags.get(number as usize).copied().unwrap_or(false)
}

/// Which files some micro-operation changes, and of which directories some `set_attr` sets the
/// owner, group and permissions. Making them isn't a change.
fn changed_by(alloc: Global, parts: &Parts, ops: &[MicroOp]) -> Result<Changed, AllocError> {
    let mut files = Vec::from_slice(alloc, &parts.tables.changed)?;
    let mut directories = vec![in alloc; false; parts.tables.directories.len()]?;
    for op in ops {
        if let MicroOp::SetAttr { target, .. } = op {
            match target {
                Target::File(file) => set_flag(&mut files, *file),
                Target::Directory { number, .. } => set_flag(&mut directories, *number),
            }
        }
    }
    Ok(Changed { files, directories })
}

/// Whether some micro-operation changes the file, or the directory's owner, group or permissions.
fn is_changed(changed: &Changed, node: Node) -> bool {
    match node {
        Node::Directory(number) => flag_at(&changed.directories, number),
        Node::File(_, file) => flag_at(&changed.files, file),
    }
}

/// The places of the entries that hold something at the start and that no micro-operation touches,
/// but that may be at different paths, or whose file or directory is changed. An entry stays at its
/// path if it is in the root, or in a directory whose own entry isn't touched and stays. Entries
/// are in the order of their directories' numbers, and a directory of the start has a higher number
/// than its parent: so a directory's own entry comes before those in it. If it didn't, these would
/// count as varying, which only costs time.
fn untouched_places(alloc: Global, parts: &Parts, ops: &[MicroOp]) -> Result<Vec<u32>, AllocError> {
    let changed = changed_by(alloc, parts, ops)?;
    let mut touched = vec![in alloc; false; parts.tables.entries.len()]?;
    for place in &parts.touched.ids {
        set_flag(&mut touched, *place);
    }
    let mut stays = vec![in alloc; false; parts.tables.directories.len()]?;
    set_flag(&mut stays, 0);
    let mut places = Vec::new(alloc);
    let mut place = 0u32;
    for (entry, slot) in parts.tables.entries.iter().zip(&parts.tables.slots) {
        if let (Some(node), false) = (*slot, flag_at(&touched, place)) {
            let is_fixed = flag_at(&stays, entry.directory);
            if let (Node::Directory(number), true) = (node, is_fixed) {
                set_flag(&mut stays, number);
            }
            if !is_fixed || is_changed(&changed, node) {
                places.push(place)?;
            }
        }
        // There are fewer entries than 2^32, so this doesn't saturate.
        place = place.saturating_add(1);
    }
    Ok(places)
}

/// Notes in `homes` that the directory has the entry at this place. If the node is a file, or a
/// directory that has no home there, nothing changes.
fn note_home(homes: &mut [u32], node: Node, place: u32) {
    if let Node::Directory(number) = node {
        if let Some(home) = homes.get_mut(number as usize) {
            *home = place;
        }
    }
}

/// For each directory, the place of its entry at the start; 0 for the root and for one that a
/// micro-operation makes.
fn start_homes(alloc: Global, parts: &Parts) -> Result<Vec<u32>, AllocError> {
    let mut homes = vec![in alloc; 0; parts.tables.directories.len()]?;
    let mut place = 0u32;
    for slot in &parts.tables.slots {
        if let Some(node) = *slot {
            note_home(&mut homes, node, place);
        }
        place = place.saturating_add(1);
    }
    Ok(homes)
}

/// Makes a step in these slots, as the private function of this name in cs_apm (`slot`), which has
/// a contract; here what is out of range is skipped.
fn make_step(slots: &mut [Option<Node>], step: Step) {
    match step {
        Step::Set(place, slot) => set_slot(slots, place, slot),
        Step::Move(from, to) => {
            let node = slots.get(from as usize).copied().unwrap_or(None);
            if node.is_some() {
                set_slot(slots, from, None);
                set_slot(slots, to, node);
            }
        }
        Step::Other => {}
    }
}

/// Puts this into the slot of the place. If there is none, nothing changes, as in `set_flag`.
fn set_slot(slots: &mut [Option<Node>], place: u32, slot: Option<Node>) {
    if let Some(old) = slots.get_mut(place as usize) {
        *old = slot;
    }
}

/// What a state has in the slots that some step changes, in the order of `parts.touched`.
fn touched_left(
    alloc: Global,
    parts: &Parts,
    members: &[bool],
) -> Result<Vec<Option<Node>>, AllocError> {
    let mut left = Vec::from_slice(alloc, &parts.touched.slots)?;
    for (member, step) in members.iter().zip(&parts.touched.steps) {
        if *member {
            make_step(&mut left, *step);
        }
    }
    Ok(left)
}

impl VaryingEntries {
    /// The entries at which the states of the trace with these parts and micro-operations may
    /// differ. No state is noted yet: directories are where they are at the start.
    pub fn of(alloc: Global, parts: &Parts, ops: &[MicroOp]) -> Result<VaryingEntries, AllocError> {
        let mut names = Vec::new(alloc);
        for entry in &parts.tables.entries {
            names.push(digest_of_bytes(entry.name.as_bytes()))?;
        }
        Ok(VaryingEntries {
            untouched: untouched_places(alloc, parts, ops)?,
            names,
            homes: start_homes(alloc, parts)?,
        })
    }

    /// Those of these entries that hold something in the state with these members, each with its
    /// place among all entries of the tables. The state is noted: `digest_of_path` and `path_of`
    /// are of it until the next call. After an error it is noted only in part.
    pub fn held(
        &mut self,
        alloc: Global,
        parts: &Parts,
        members: &[bool],
    ) -> Result<Vec<(u32, Node)>, AllocError> {
        let left = touched_left(alloc, parts, members)?;
        let mut held = Vec::new(alloc);
        for (place, slot) in parts.touched.ids.iter().zip(&left) {
            if let Some(node) = *slot {
                note_home(&mut self.homes, node, *place);
                held.push((*place, node))?;
            }
        }
        for place in &self.untouched {
            if let Some(node) = parts
                .tables
                .slots
                .get(*place as usize)
                .copied()
                .unwrap_or(None)
            {
                held.push((*place, node))?;
            }
        }
        Ok(held)
    }

    /// The place of the entry that the directory has in the state that was noted last; None for the
    /// root, which has no entry, and for a directory out of range.
    fn home(&self, directory: u32) -> Option<u32> {
        if directory == 0 {
            return None;
        }
        self.homes.get(directory as usize).copied()
    }

    /// The digest of the path that the entry at this place has in the state that was noted last: of
    /// the digests of its names, from the last name to the first.
    pub fn digest_of_path(&self, parts: &Parts, place: u32) -> u64 {
        let mut digest = 0;
        let mut next = Some(place);
        // A path has at most as many names as there are directories, since none is above itself.
        for _ in 0..self.homes.len() {
            let Some(place) = next else {
                return digest;
            };
            digest = mix(digest, self.names.get(place as usize).copied().unwrap_or(0));
            next = match parts.tables.entries.get(place as usize) {
                Some(entry) => self.home(entry.directory),
                None => None,
            };
        }
        digest
    }

    /// The path that the entry at this place has in the state that was noted last.
    pub fn path_of(&self, alloc: Global, parts: &Parts, place: u32) -> Result<Path, AllocError> {
        let mut names = Vec::new(alloc);
        let mut next = Some(place);
        for _ in 0..self.homes.len() {
            let Some(entry) = next.and_then(|place| parts.tables.entries.get(place as usize)) else {
                break;
            };
            names.push(entry.name.try_clone()?)?;
            next = self.home(entry.directory);
        }
        names.reverse();
        Path::from_names(alloc, &names)
    }
}

/// The digests of the owner, group and permissions (the rights) of directories, in one state after
/// another.
#[derive(Debug, Drop)]
pub struct DirectoryRights {
    /// The digests before any change, in the order of `directories` of the tables.
    start: Vec<u64>,
    /// The digest of each directory in the state that was noted last, by its number.
    left: Vec<u64>,
    /// For each micro-operation that sets the rights of a directory or makes one with them: its
    /// place, the directory's number, and the digest of the rights.
    changes: Vec<(u32, u32, u64)>,
}

/// Replaces the digest of the directory with this number. If there is none, nothing changes, as in
/// `set_flag`.
fn set_digest(digests: &mut [u64], number: u32, digest: u64) {
    if let Some(old) = digests.get_mut(number as usize) {
        *old = digest;
    }
}

impl DirectoryRights {
    /// The digests of the rights of the trace's directories. No state is noted yet: directories
    /// have the rights that they are made with.
    pub fn of(
        alloc: Global,
        parts: &Parts,
        ops: &[MicroOp],
    ) -> Result<DirectoryRights, AllocError> {
        let mut start = Vec::new(alloc);
        for rights in &parts.tables.directories {
            start.push(digest_of_rights(rights))?;
        }
        let mut changes = Vec::new(alloc);
        let mut place = 0u32;
        for op in ops {
            match op {
                MicroOp::CreateDirEntry {
                    node: Node::Directory(number),
                    rights,
                    ..
                } => changes.push((place, *number, digest_of_rights(rights)))?,
                MicroOp::SetAttr {
                    target: Target::Directory { number, .. },
                    rights,
                } => changes.push((place, *number, digest_of_rights(rights)))?,
                _ => {}
            }
            place = place.saturating_add(1);
        }
        let left = Vec::from_slice(alloc, &start)?;
        Ok(DirectoryRights {
            start,
            left,
            changes,
        })
    }

    /// Notes the digests of the rights of all directories in the state that has these members, for
    /// `digest_of`: of each, those of the last member that sets them, or those at the start.
    pub fn note(&mut self, members: &[bool]) {
        for (_, number, _) in &self.changes {
            let first = self.start.get(*number as usize).copied().unwrap_or(0);
            set_digest(&mut self.left, *number, first);
        }
        for (place, number, digest) in &self.changes {
            if flag_at(members, *place) {
                set_digest(&mut self.left, *number, *digest);
            }
        }
    }

    /// The digest of the rights of the directory with this number in the state that was noted last;
    /// 0 if there is no such number.
    pub fn digest_of(&self, number: u32) -> u64 {
        self.left.get(number as usize).copied().unwrap_or(0)
    }
}

//! What is found once for each micro-operation: the latest makings of the directories in which it
//! touches an entry (for P3), and the first sync point after it that covers it (for P5). A making
//! is the micro-operation that makes a directory; in versions 1 to 3 of the trace, where a
//! directory is its path, there may be several. The place of a sync point is how many
//! micro-operations come before it.
ghost use Rattle.std.specs.Prelude.{◌≡◌, ◌<◌, ◌≤◌, ℕ, length, IfOk};
ghost use Rattle.cs_entries.specs.Rules.{is_latest};
ghost use Rattle.cs_apm.specs.Finding.{AreSynced, is_at, is_before, is_by, is_parent_making};
ghost use Rattle.cs_apm.specs.Rules as rules;

use crate::rules::{is_covered, op_at};
use crate::touching::makes;
use cs_micro::{MicroOp, SyncPoint};
use std::alloc::{AllocError, Global};

/// The places of the latest makings of the directories in which a micro-operation touches an entry.
/// There are at most two.
#[derive(Clone, Copy, Debug)]
pub struct ParentMakings {
    /// For the directory of the entry, or the one that a move is from. None if it was there at the
    /// start, or the micro-operation touches no entry.
    first: Option<usize>,
    /// For the directory that a move is to. None if it was there at the start, or the
    /// micro-operation is no move.
    second: Option<usize>,
}

/// The place of the last micro-operation before place `j` that makes the directory. None if none
/// does.
fn latest_making(ops: &[MicroOp], j: usize, directory: u32) -> Option<usize>
    requires { j ≤ length ops.now }
    ensures { (i : ℕ) → i < j
        → is_at result i ≡ is_latest (rules.entry_op_at ops.now) i j directory }
{
    let mut latest = None;
    for k in 0..j {
        if makes(op_at(ops, k), directory) {
            latest = Some(k);
        }
    }
    latest
}

impl ParentMakings {
    /// The latest makings, before the micro-operation at place `j`, of the directories in which it
    /// touches an entry; none if it touches none.
    pub fn of(ops: &[MicroOp], j: usize) -> ParentMakings
        requires { j < length ops.now }
        ensures { (i : ℕ) → i < j → is_parent_making result i ≡ rules.makes_parent ops.now i j }
    {
        let (first, second) = match op_at(ops, j) {
            MicroOp::CreateDirEntry { entry, .. } => {
                (latest_making(ops, j, entry.directory), None)
            }
            MicroOp::DeleteDirEntry { entry, .. } => {
                (latest_making(ops, j, entry.directory), None)
            }
            MicroOp::LinkDirEntry { entry, .. } => (latest_making(ops, j, entry.directory), None),
            MicroOp::MoveDirEntry { from, to, .. } => (
                latest_making(ops, j, from.directory),
                latest_making(ops, j, to.directory),
            ),
            MicroOp::SetAttr { .. }
            | MicroOp::ChangeFileSize { .. }
            | MicroOp::WriteBlock { .. }
            | MicroOp::Say => (None, None),
        };
        ParentMakings { first, second }
    }

    /// Whether the micro-operation at this place is one of these makings.
    pub fn has_making_at(&self, place: usize) -> bool
        ensures { result ≡ is_parent_making self.now place }
    {
        is_at(self.first, place) || is_at(self.second, place)
    }
}

/// Whether a place was found, and is `place`; false if none was found.
fn is_at(found: Option<usize>, place: usize) -> bool
    ensures { result ≡ is_at found place }
{
    match found {
        Some(at) => at == place,
        None => false,
    }
}

/// The place of the first sync point that is after `op`, which is at place `i`, and covers it. None
/// if no sync point does. The sync points may be in any order.
fn first_sync(syncs: &[SyncPoint], i: usize, op: &MicroOp) -> Option<usize>
    ensures { (j : ℕ) → is_by result j ≡ rules.is_synced syncs.now i j op.now }
{
    let mut first = None;
    for sync in syncs {
        if i < sync.at && is_before(sync.at, first) && is_covered(&sync.covers, op) {
            first = Some(sync.at);
        }
    }
    first
}

/// Whether the place is before the one that was found. True if none was found.
pub fn is_before(place: usize, found: Option<usize>) -> bool
    ensures { result ≡ is_before place found }
{
    match found {
        Some(at) => place < at,
        None => true,
    }
}

/// Whether a place was found, and is `j` or before `j`; false if none was found. Of the place of a
/// sync point: the sync point is before micro-operation `j`.
pub fn is_by(found: Option<usize>, j: usize) -> bool
    ensures { result ≡ is_by found j }
{
    match found {
        Some(at) => at <= j,
        None => false,
    }
}

/// For each micro-operation, the place of the first sync point that is after it and covers it. None
/// if no sync point does.
pub fn first_syncs(
    alloc: Global,
    ops: &[MicroOp],
    syncs: &[SyncPoint],
) -> Result<Vec<Option<usize>>, AllocError>
    ensures { IfOk result (λ found. AreSynced ops.now syncs.now (length ops.now) found.items) }
{
    let mut found = Vec::new(alloc);
    for (i, op) in ops.iter().enumerate() {
        found.push(first_sync(syncs, i, op))?;
    }
    Ok(found)
}

//! P11 of docs/MODEL.md: which sync points write the log of a file system with a journal, and so
//! make all earlier entry operations durable, whatever they cover. These are each sync of
//! everything, and each sync point of a file or a directory that is fresh: some micro-operation
//! changed that file or directory since the sync point before it. To force the log is to write it.
ghost use Rattle.std.specs.Prelude.{◌≡◌, ◌&&◌, ℕ, length, IfOk};
ghost use Rattle.std.specs.List.{list_any};
ghost use Rattle.cs_apm.specs.Finding.{AreLogged, is_by, logged_at};
ghost use Rattle.cs_apm.specs.Rules as rules;

use crate::found::is_before;
use crate::rules::{is_entry_operation, op_at};
use crate::touching::{sets_directory, touches_entry_of};
use cs_entries::Node;
use cs_micro::{MicroOp, SyncPoint};
use cs_trace::{Covers, Profile, Target};
use std::alloc::{AllocError, Global};

/// Whether the node is the file or the symbolic link with this number.
fn is_file_numbered(file: u32, node: Node) -> bool
    ensures { result ≡ rules.is_file_numbered file node }
{
    match node {
        Node::Directory(_) => false,
        Node::File(_, number) => number == file,
    }
}

/// Whether the node is the directory with this number.
fn is_directory_numbered(directory: u32, node: Node) -> bool
    ensures { result ≡ rules.is_directory_numbered directory node }
{
    match node {
        Node::Directory(number) => number == directory,
        Node::File(..) => false,
    }
}

/// Whether the micro-operation makes, links, moves or replaces the file or symbolic link, or
/// removes one of its entries.
fn handles_file(file: u32, op: &MicroOp) -> bool
    ensures { result ≡ list_any (rules.is_file_numbered file) (rules.nodes_handled op.now) }
{
    match op {
        MicroOp::CreateDirEntry { node, .. } => is_file_numbered(file, *node),
        MicroOp::DeleteDirEntry { node, .. } => is_file_numbered(file, *node),
        MicroOp::MoveDirEntry { node, replaced, .. } => match replaced {
            None => is_file_numbered(file, *node),
            Some(old) => is_file_numbered(file, *node) || is_file_numbered(file, *old),
        },
        MicroOp::LinkDirEntry {
            file: linked,
            replaced,
            ..
        } => match replaced {
            None => *linked == file,
            Some(old) => *linked == file || is_file_numbered(file, *old),
        },
        MicroOp::ChangeFileSize { .. }
        | MicroOp::WriteBlock { .. }
        | MicroOp::SetAttr { .. }
        | MicroOp::Say => false,
    }
}

/// Whether the micro-operation makes, moves, removes or replaces the directory. What it does to
/// entries in the directory doesn't count.
fn handles_directory(directory: u32, op: &MicroOp) -> bool
    ensures { result
        ≡ list_any (rules.is_directory_numbered directory) (rules.nodes_handled op.now) }
{
    match op {
        MicroOp::CreateDirEntry { node, .. } => is_directory_numbered(directory, *node),
        MicroOp::DeleteDirEntry { node, .. } => is_directory_numbered(directory, *node),
        MicroOp::MoveDirEntry { node, replaced, .. } => match replaced {
            None => is_directory_numbered(directory, *node),
            Some(old) => {
                is_directory_numbered(directory, *node) || is_directory_numbered(directory, *old)
            }
        },
        MicroOp::LinkDirEntry { replaced, .. } => match replaced {
            None => false,
            Some(old) => is_directory_numbered(directory, *old),
        },
        MicroOp::ChangeFileSize { .. }
        | MicroOp::WriteBlock { .. }
        | MicroOp::SetAttr { .. }
        | MicroOp::Say => false,
    }
}

/// Whether the micro-operation writes to the file, changes its size, or sets its owner, group and
/// permissions; what it does to the file's entries doesn't count.
fn alters_inode(file: u32, op: &MicroOp) -> bool
    ensures { result ≡ rules.alters_inode file op.now }
{
    match op {
        MicroOp::WriteBlock { file: other, .. } => *other == file,
        MicroOp::ChangeFileSize { file: other, .. } => *other == file,
        MicroOp::SetAttr {
            target: Target::File(other),
            ..
        } => *other == file,
        _ => false,
    }
}

/// Whether the micro-operation makes a later fsync of the file fresh: it changes the file in any
/// way, or makes, moves, removes or replaces one of its entries.
fn alters_file(file: u32, op: &MicroOp) -> bool
    ensures { result ≡ rules.alters_file file op.now }
{
    alters_inode(file, op) || handles_file(file, op)
}

/// Whether the micro-operation makes a later fsync of the directory fresh: it changes an entry in
/// the directory, the directory's own entry, or its owner, group and permissions.
fn alters_directory(directory: u32, op: &MicroOp) -> bool
    ensures { result ≡ rules.alters_directory directory op.now }
{
    touches_entry_of(op, directory)
        || sets_directory(op, directory)
        || handles_directory(directory, op)
}

/// Whether the micro-operation makes a later fdatasync or fsync_range of the file fresh: it changes
/// the size of the file, or makes it.
fn resizes_or_makes(file: u32, op: &MicroOp) -> bool
    ensures { result ≡ rules.resizes_or_makes file op.now }
{
    match op {
        MicroOp::ChangeFileSize { file: other, .. } => *other == file,
        MicroOp::CreateDirEntry { node, .. } => is_file_numbered(file, *node),
        _ => false,
    }
}

/// Whether the micro-operation makes a later sync that covers this (`covers`) fresh, so that it
/// writes the log, if no other sync point is between them. Any makes a sync of everything fresh.
fn has_to_log(covers: &Covers, op: &MicroOp) -> bool
    ensures { result ≡ rules.has_to_log covers.now op.now }
{
    match covers {
        Covers::All => true,
        Covers::File(file) => alters_file(*file, op),
        Covers::Data(file) => resizes_or_makes(*file, op),
        Covers::Range { file, .. } => resizes_or_makes(*file, op),
        Covers::Directory { number, .. } => alters_directory(*number, op),
    }
}

/// Whether a sync that covers this is one of everything, which always writes the log.
fn is_of_all(covers: &Covers) -> bool
    ensures { result ≡ rules.is_of_all covers.now }
{
    match covers {
        Covers::All => true,
        _ => false,
    }
}

/// Whether the sync point writes the log. `from` is the place of the sync point before it, or 0 if
/// it is the first: only what comes after that makes it fresh.
fn forces_log(ops: &[MicroOp], from: usize, sync: &SyncPoint) -> bool
    ensures { result ≡ rules.forces_log ops.now from sync.now }
{
    if is_of_all(&sync.covers) {
        return true;
    }
    // After the last micro-operation there is nothing to log.
    for place in from..sync.at.min(ops.len()) {
        if has_to_log(&sync.covers, op_at(ops, place)) {
            return true;
        }
    }
    false
}

/// The places of the sync points that write the log of a file system with a journal, in the order
/// of the sync points. A place may be there twice, if two sync points at it write the log.
fn places_forced(
    alloc: Global,
    ops: &[MicroOp],
    syncs: &[SyncPoint],
) -> Result<Vec<usize>, AllocError>
    ensures { IfOk result (λ forced. forced.items ≡ rules.log_forced_at ops.now 0 syncs.now) }
{
    let mut forced = Vec::new(alloc);
    let mut from = 0;
    for sync in syncs {
        if forces_log(ops, from, sync) {
            forced.push(sync.at)?;
        }
        from = sync.at;
    }
    Ok(forced)
}

/// The places of the sync points that write the log on a file system of the profile, in the order
/// of the sync points: none if it has no journal.
fn places_logged(
    alloc: Global,
    ops: &[MicroOp],
    syncs: &[SyncPoint],
    profile: Profile,
) -> Result<Vec<usize>, AllocError>
    ensures { IfOk result (λ forced. forced.items ≡ logged_at profile ops.now syncs.now) }
{
    match profile {
        Profile::Blocks => Ok(Vec::new(alloc)),
        Profile::Ordered => Ok(Vec::new(alloc)),
        Profile::Journal => places_forced(alloc, ops, syncs),
    }
}

/// The first of these places that is after place `i`. None if none is. The places may be in any
/// order.
fn first_behind(forced: &[usize], i: usize) -> Option<usize>
    ensures { (j : ℕ) → is_by result j ≡ rules.is_forced_between forced.now i j }
{
    let mut first = None;
    for at in forced {
        if i < *at && is_before(*at, first) {
            first = Some(*at);
        }
    }
    first
}

/// The first of the places `forced` that is after place `i`, if `op`, which is at place `i`,
/// touches an entry. None if no place is after it, or if `op` touches no entry.
fn first_log(forced: &[usize], i: usize, op: &MicroOp) -> Option<usize>
    ensures { (j : ℕ) → is_by result j
        ≡ (rules.is_entry_operation op.now && rules.is_forced_between forced.now i j) }
{
    if !is_entry_operation(op) {
        return None;
    }
    first_behind(forced, i)
}

/// For each micro-operation, the first place after it at which a sync point writes the log: after
/// that sync point it is durable, whatever the sync point covers. None if it touches no entry, if
/// no sync point after it writes the log, or if the profile has no journal.
pub fn first_logs(
    alloc: Global,
    ops: &[MicroOp],
    syncs: &[SyncPoint],
    profile: Profile,
) -> Result<Vec<Option<usize>>, AllocError>
    ensures { IfOk result
        (λ found. AreLogged ops.now syncs.now profile (length ops.now) found.items) }
{
    let forced = places_logged(alloc, ops, syncs, profile)?;
    let mut found = Vec::new(alloc);
    for (i, op) in ops.iter().enumerate() {
        found.push(first_log(&forced, i, op))?;
    }
    Ok(found)
}

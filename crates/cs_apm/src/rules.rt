//! The rules of docs/MODEL.md (P1 to P13) that look only at two micro-operations: `a` is the
//! earlier one in the trace, and `b` the later one, which may need it. What a single
//! micro-operation does to entries and directories is in `touching`. The searches for P3 and P5 are
//! in `found`, those for P11 in `logs`; P13 is in `rows`.
ghost use Rattle.std.specs.Prelude.{◌≡◌, ◌<◌, length};
ghost use Rattle.std.specs.List.{list_any};
ghost use Rattle.cs_entries.specs.Rules.{shares_entry};
ghost use Rattle.cs_micro.specs.Legal.{entry_op};
ghost use Rattle.cs_apm.specs.Rules as rules;

use crate::touching::{
    moves_directory, removes, sets_directory, settles, touches, touches_entry_of,
};
use cs_entries::Node;
use cs_micro::MicroOp;
use cs_trace::{Covers, Profile, Target, Version};

/// P1: whether both write the same block of the same file, or both change the size of the same
/// file.
fn same_block_or_size(a: &MicroOp, b: &MicroOp) -> bool
    ensures { result ≡ rules.same_block_or_size a.now b.now }
{
    match a {
        MicroOp::WriteBlock { file, block, .. } => match b {
            MicroOp::WriteBlock {
                file: other,
                block: number,
                ..
            } => file == other && block == number,
            _ => false,
        },
        MicroOp::ChangeFileSize { file, .. } => match b {
            MicroOp::ChangeFileSize { file: other, .. } => file == other,
            _ => false,
        },
        _ => false,
    }
}

/// The first case of P2: whether there is an entry that both touch.
fn shares_entry(a: &MicroOp, b: &MicroOp) -> bool
    ensures { result ≡ shares_entry (entry_op a.now) (entry_op b.now) }
{
    match b {
        MicroOp::CreateDirEntry { entry, .. } => touches(a, entry),
        MicroOp::DeleteDirEntry { entry, .. } => touches(a, entry),
        MicroOp::LinkDirEntry { entry, .. } => touches(a, entry),
        MicroOp::MoveDirEntry { from, to, .. } => touches(a, from) || touches(a, to),
        MicroOp::ChangeFileSize { .. }
        | MicroOp::WriteBlock { .. }
        | MicroOp::SetAttr { .. }
        | MicroOp::Say => false,
    }
}

/// The second case of P2: whether there is a directory that each of them makes or removes (also by
/// a move that replaces it), or sets the owner, group and permissions of.
fn shares_directory(a: &MicroOp, b: &MicroOp) -> bool
    ensures { result ≡ list_any (rules.settles a.now) (rules.directories_settled b.now) }
{
    match b {
        MicroOp::CreateDirEntry {
            node: Node::Directory(number),
            ..
        } => settles(a, *number),
        MicroOp::DeleteDirEntry {
            node: Node::Directory(number),
            ..
        } => settles(a, *number),
        MicroOp::MoveDirEntry {
            replaced: Some(Node::Directory(number)),
            ..
        } => settles(a, *number),
        MicroOp::SetAttr {
            target: Target::Directory { number, .. },
            ..
        } => settles(a, *number),
        _ => false,
    }
}

/// P4: whether the second removes a directory, also by a move that replaces it, and the first
/// touches an entry in it.
fn touches_removed_directory(a: &MicroOp, b: &MicroOp) -> bool
    ensures { result ≡ rules.touches_removed_directory a.now b.now }
{
    match a {
        MicroOp::CreateDirEntry { entry, .. } => removes(b, entry.directory),
        MicroOp::DeleteDirEntry { entry, .. } => removes(b, entry.directory),
        MicroOp::LinkDirEntry { entry, .. } => removes(b, entry.directory),
        MicroOp::MoveDirEntry { from, to, .. } => {
            removes(b, from.directory) || removes(b, to.directory)
        }
        MicroOp::ChangeFileSize { .. }
        | MicroOp::WriteBlock { .. }
        | MicroOp::SetAttr { .. }
        | MicroOp::Say => false,
    }
}

/// P6: whether both are acknowledged lines.
fn both_say(a: &MicroOp, b: &MicroOp) -> bool
    ensures { result ≡ rules.both_say a.now b.now }
{
    match a {
        MicroOp::Say => match b {
            MicroOp::Say => true,
            _ => false,
        },
        _ => false,
    }
}

/// P7: whether both set owner, group and permissions of the same file or symbolic link. (Those of a
/// directory are in P2.)
fn sets_same_file(a: &MicroOp, b: &MicroOp) -> bool
    ensures { result ≡ rules.sets_same_file a.now b.now }
{
    match a {
        MicroOp::SetAttr {
            target: Target::File(file),
            ..
        } => match b {
            MicroOp::SetAttr {
                target: Target::File(other),
                ..
            } => file == other,
            _ => false,
        },
        _ => false,
    }
}

/// Whether the micro-operation makes, deletes, moves or links an entry, and so touches one.
pub fn is_entry_operation(op: &MicroOp) -> bool
    ensures { result ≡ rules.is_entry_operation op.now }
{
    match op {
        MicroOp::CreateDirEntry { .. }
        | MicroOp::DeleteDirEntry { .. }
        | MicroOp::MoveDirEntry { .. }
        | MicroOp::LinkDirEntry { .. } => true,
        MicroOp::ChangeFileSize { .. }
        | MicroOp::WriteBlock { .. }
        | MicroOp::SetAttr { .. }
        | MicroOp::Say => false,
    }
}

/// P8: whether both make, delete, move or link entries, and a file system of the profile keeps such
/// micro-operations in order.
fn keeps_order(profile: Profile, a: &MicroOp, b: &MicroOp) -> bool
    ensures { result ≡ rules.keeps_order profile a.now b.now }
{
    match profile {
        Profile::Blocks => false,
        Profile::Ordered => is_entry_operation(a) && is_entry_operation(b),
        Profile::Journal => is_entry_operation(a) && is_entry_operation(b),
    }
}

/// P9: whether the first is an acknowledged line, in a version (3 or later) in which all that
/// follows such a line needs it.
fn says_before(version: Version, a: &MicroOp) -> bool
    ensures { result ≡ rules.says_before version a.now }
{
    match a {
        MicroOp::Say => version.says_first(),
        _ => false,
    }
}

/// P10: whether the first makes the file or the symbolic link that the second links, also as the
/// first half of a rename.
fn creates_linked(a: &MicroOp, b: &MicroOp) -> bool
    ensures { result ≡ rules.creates_linked a.now b.now }
{
    match a {
        MicroOp::CreateDirEntry {
            node: Node::File(_, file),
            ..
        } => match b {
            MicroOp::LinkDirEntry { file: other, .. } => file == other,
            _ => false,
        },
        _ => false,
    }
}

/// P12: whether both move directories. Only traces of version 4 have such moves, so the version
/// isn't asked.
fn both_move_directories(a: &MicroOp, b: &MicroOp) -> bool
    ensures { result ≡ rules.both_move_directories a.now b.now }
{
    moves_directory(a) && moves_directory(b)
}

/// P2: whether both touch the same entry, or each of them makes, removes, or sets the owner, group
/// and permissions of the same directory. (In versions 1 to 3: both name the same path.)
fn shares_name(a: &MicroOp, b: &MicroOp) -> bool
    ensures { result ≡ rules.shares_name a.now b.now }
{
    shares_entry(a, b) || shares_directory(a, b)
}

/// Whether the second needs the first by a rule that looks only at these two, if the trace has the
/// version, on a file system of the profile: P1, P2, P4, P6 to P10, or P12.
pub fn pair_needs(version: Version, profile: Profile, a: &MicroOp, b: &MicroOp) -> bool
    ensures { result ≡ rules.pair_needs version profile a.now b.now }
{
    same_block_or_size(a, b)
        || shares_name(a, b)
        || touches_removed_directory(a, b)
        || both_say(a, b)
        || sets_same_file(a, b)
        || keeps_order(profile, a, b)
        || says_before(version, a)
        || creates_linked(a, b)
        || both_move_directories(a, b)
}

/// Whether the micro-operation is the first half of a rename into another directory: a
/// `link_dir_entry` that a rename became, not a link. The second half is the next micro-operation.
pub fn is_first_half(op: &MicroOp) -> bool
    ensures { result ≡ rules.is_first_half op.now }
{
    match op {
        MicroOp::LinkDirEntry { is_half, .. } => *is_half,
        _ => false,
    }
}

/// Whether the bytes of a file from `begin` on and before `end` are all in the range of `count`
/// bytes from `offset` on. The range may end above 2^64. If `begin` is `end`, there are no bytes;
/// then `begin` must be in the range or at its end.
fn lies_within(offset: u64, count: u64, begin: u128, end: u128) -> bool
    ensures { result ≡ rules.lies_within offset count begin end }
{
    u128::from(offset) <= begin && end <= u128::from(offset) + u128::from(count)
}

/// Whether an fsync_range of `count` bytes of the file from `offset` on covers the micro-operation.
/// It covers a write into the file if all its bytes are in this range, each change of the file's
/// size, and nothing else.
fn is_in_range(file: u32, offset: u64, count: u64, op: &MicroOp) -> bool
    ensures { result ≡ rules.is_covered (Covers.Range file offset count) op.now }
{
    match op {
        MicroOp::WriteBlock {
            file: other,
            start,
            at,
            bytes,
            ..
        } => {
            let begin = u128::from(*start) + u128::from(*at);
            let end = begin + bytes.as_slice().len() as u128;
            file == *other && lies_within(offset, count, begin, end)
        }
        MicroOp::ChangeFileSize { file: other, .. } => file == *other,
        _ => false,
    }
}

/// Whether an fdatasync of the file covers the micro-operation: it writes to the file, or changes
/// its size. (`changes_file` of `content` has the same body.)
fn is_of_data(file: u32, op: &MicroOp) -> bool
    ensures { result ≡ rules.is_covered (Covers.Data file) op.now }
{
    match op {
        MicroOp::WriteBlock { file: other, .. } => file == *other,
        MicroOp::ChangeFileSize { file: other, .. } => file == *other,
        _ => false,
    }
}

/// Whether a sync that covers this (`covers`) covers the micro-operation, if that comes before it.
/// One of a file covers its bytes, its sizes, and its owner, group and mode, but none of its
/// entries; one of a directory covers what touches an entry in it (of a move, either end), and the
/// directory's own owner, group and mode. The table is in docs/MODEL.md, "What a sync covers".
pub fn is_covered(covers: &Covers, op: &MicroOp) -> bool
    ensures { result ≡ rules.is_covered covers.now op.now }
{
    match covers {
        Covers::All => true,
        Covers::File(file) => match op {
            MicroOp::WriteBlock { file: other, .. } => file == other,
            MicroOp::ChangeFileSize { file: other, .. } => file == other,
            MicroOp::SetAttr {
                target: Target::File(owned),
                ..
            } => file == owned,
            _ => false,
        },
        Covers::Data(file) => is_of_data(*file, op),
        Covers::Range {
            file,
            offset,
            length,
        } => is_in_range(*file, *offset, *length, op),
        Covers::Directory { number, .. } => {
            touches_entry_of(op, *number) || sets_directory(op, *number)
        }
    }
}

/// The micro-operation at a place, from 0.
pub fn op_at(ops: &[MicroOp], place: usize) -> &MicroOp
    requires { place < length ops.now }
    ensures { result.now ≡ rules.op_at ops.now place }
{
    &ops[place]
}

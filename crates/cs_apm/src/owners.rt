//! Owner, group and permissions of the files and directories of a crash state. In the names of this
//! module, `owner` means all three. A file is a symbolic link, too.
ghost use Rattle.std.specs.Prelude.{◌≡◌, ◌<◌, length, slice_index_or};
ghost use Rattle.std.specs.List.{All};
ghost use Rattle.cs_apm.specs.Owners.{directory_after, directory_left, owner_after, owner_left};
ghost use Rattle.cs_apm.specs.States.{no_rights};

use cs_entries::Node;
use cs_micro::MicroOp;
use cs_trace::{Rights, Target};

/// Owner, group and permissions of the file after the micro-operation: those that it sets for this
/// file. If it sets none for it, they are `owner`, as before it. What makes the file sets none.
pub fn owner_after<'a>(file: u32, owner: &'a Rights, op: &'a MicroOp) -> &'a Rights
    ensures { result.now ≡ owner_after file owner.now op.now }
{
    match op {
        MicroOp::SetAttr {
            target: Target::File(other),
            rights,
        } => { if *other == file { rights } else { owner } }
        _ => owner,
    }
}

/// Owner, group and permissions of the file after the members of a set, which are at these places.
/// `owners` has those of each file as it is made, by its number: if no member sets others, these
/// stay. `owner_after_members` of cs_state finds the same without looking at each member.
pub fn owner_left<'a>(
    owners: &'a [Rights],
    ops: &'a [MicroOp],
    places: &[u32],
    file: u32,
) -> &'a Rights
    requires known { file < length owners.now }
    requires inside { All (λ place. place < length ops.now) places.now }
    ensures { result.now
        ≡ owner_left file (slice_index_or owners.now file no_rights) ops.now places.now }
{
    let mut owner = &owners[file as usize];
    for place in places {
        owner = owner_after(file, owner, &ops[*place as usize]);
    }
    owner
}

/// Owner, group and permissions of the directory after the micro-operation: those of the
/// micro-operation, if it makes this directory or sets them for it. If not, they are `owner`, as
/// before it.
pub fn directory_after<'a>(directory: u32, owner: &'a Rights, op: &'a MicroOp) -> &'a Rights
    ensures { result.now ≡ directory_after directory owner.now op.now }
{
    match op {
        MicroOp::CreateDirEntry {
            node: Node::Directory(number),
            rights,
            ..
        } => { if *number == directory { rights } else { owner } }
        MicroOp::SetAttr {
            target: Target::Directory { number, .. },
            rights,
        } => { if *number == directory { rights } else { owner } }
        _ => owner,
    }
}

/// Owner, group and permissions of the directory after the members of a set, which are at these
/// places. `directories` is as `directories_of` returns it. If a member makes the directory or sets
/// them, those of the last such member count.
pub fn directory_left<'a>(
    directories: &'a [Rights],
    ops: &'a [MicroOp],
    places: &[u32],
    directory: u32,
) -> &'a Rights
    requires known { directory < length directories.now }
    requires inside { All (λ place. place < length ops.now) places.now }
    ensures { result.now
        ≡ directory_left directory (slice_index_or directories.now directory no_rights) ops.now
        places.now }
{
    let mut owner = &directories[directory as usize];
    for place in places {
        owner = directory_after(directory, owner, &ops[*place as usize]);
    }
    owner
}

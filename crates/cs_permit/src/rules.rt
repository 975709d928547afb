//! The tests that rules of several calls share. Each looks at one file: at its kind or mode, at
//! whether it is there, or at a user's rights on it or on its directory.
ghost use Rattle.std.specs.Prelude.{◌≡◌};
ghost use Rattle.cs_tree_model.specs.Record.{metadata_of_ref};
ghost use Rattle.cs_permit.specs.Rules.{is_append_only, is_directory, is_exclusive, is_gone};
ghost use Rattle.cs_permit.specs.Rules.{may_access, parent_lacks};

use cs_names::UserName;
use cs_tree_model::{DMAPPEND, DMEXCL, Kind, Metadata, TreeRead};
use cs_users::{Right, Users, has_bit};

/// Whether the file is a directory. Its kind says so; the mode isn't looked at.
pub fn is_directory(file: &Metadata) -> bool
    ensures { result ≡ is_directory (metadata_of_ref file.now) }
{
    match file.kind {
        Kind::Directory => true,
        Kind::File { .. } => false,
    }
}

/// Whether all writes to the file go to its end: its mode has DMAPPEND.
pub fn is_append_only(file: &Metadata) -> bool
    ensures { result ≡ is_append_only (metadata_of_ref file.now) }
{
    has_bit(file.mode, DMAPPEND)
}

/// Whether the file may be open only once at a time: its mode has DMEXCL.
pub fn is_exclusive(file: &Metadata) -> bool
    ensures { result ≡ is_exclusive (metadata_of_ref file.now) }
{
    has_bit(file.mode, DMEXCL)
}

/// Whether no file of the tree has the number.
pub fn is_gone<T: TreeRead>(tree: &T, number: u64) -> bool
    ensures { result ≡ is_gone (T.tree tree.now) number }
{
    tree.record(number).is_none()
}

/// Whether the user has the right on the file, by its owner, its group and its mode: any of the
/// three may grant it, and `none` has the rights of others only.
pub fn may_access(users: &Users, user: &UserName, right: Right, file: &Metadata) -> bool
    ensures { result ≡ may_access users.now user.now right (metadata_of_ref file.now) }
{
    cs_users::has_right(
        users,
        user.as_bytes(),
        file.owner.as_bytes(),
        file.group.as_bytes(),
        file.mode,
        right,
    )
}

/// Whether the user lacks the right on the file's directory; the root is its own directory. False
/// if no file has the number, so callers look for the file first.
pub fn parent_lacks<T: TreeRead>(
    tree: &T,
    users: &Users,
    user: &UserName,
    right: Right,
    number: u64,
) -> bool
    ensures { result ≡ parent_lacks (T.tree tree.now) users.now user.now right number }
{
    let Some(parent) = tree.parent_of(number) else {
        return false;
    };
    match tree.record(parent) {
        Some(directory) => !may_access(users, user, right, &directory),
        // it is never None: the tree has a record of each parent
        None => false,
    }
}

//! Whether two records have equal metadata: all but the bytes. Nothing here allocates.
ghost use Rattle.std.specs.Prelude.{◌≡◌, ◌↔◌, IsTrue};
ghost use Rattle.cs_tree_model.specs.Record.{metadata_of_ref};

use cs_names::UserName;
use cs_tree_model::{Kind, Metadata};

/// Whether both are the same name of a user or a group.
pub(crate) fn is_same_user_name(name: &UserName, other: &UserName) -> bool
    ensures { IsTrue result ↔ (name.now ≡ other.now) }
{
    name == other
}

/// Whether both are directories, or both files of the same length.
fn are_same_kinds(kind: Kind, other: Kind) -> bool
    ensures { IsTrue result ↔ (kind ≡ other) }
{
    kind == other
}

/// Whether two records have the same owner, the same group and the same user who changed the file
/// last (muid).
fn have_same_user_names(metadata: &Metadata<'_>, other: &Metadata<'_>) -> bool
    ensures { IsTrue result ↔
        ((metadata.now.owner.now ≡ other.now.owner.now)
        × (metadata.now.group.now ≡ other.now.group.now)
        × (metadata.now.muid.now ≡ other.now.muid.now)) }
{
    is_same_user_name(metadata.owner, other.owner)
        && is_same_user_name(metadata.group, other.group)
        && is_same_user_name(metadata.muid, other.muid)
}

/// Whether two records have the same number, version, mode, and times of reading and writing.
fn have_same_numbers(metadata: &Metadata<'_>, other: &Metadata<'_>) -> bool
    ensures { IsTrue result ↔
        ((metadata.now.number ≡ other.now.number) × (metadata.now.vers ≡ other.now.vers)
        × (metadata.now.mode ≡ other.now.mode) × (metadata.now.atime ≡ other.now.atime)
        × (metadata.now.mtime ≡ other.now.mtime)) }
{
    metadata.number == other.number
        && metadata.vers == other.vers
        && metadata.mode == other.mode
        && metadata.atime == other.atime
        && metadata.mtime == other.mtime
}

/// Whether two records have equal metadata: number, version, owner, group, mode, times, muid, kind
/// and length.
pub fn are_same_metadata(metadata: &Metadata<'_>, other: &Metadata<'_>) -> bool
    ensures { IsTrue result ↔ (metadata_of_ref metadata.now ≡ metadata_of_ref other.now) }
{
    have_same_numbers(metadata, other)
        && have_same_user_names(metadata, other)
        && are_same_kinds(metadata.kind, other.kind)
}

//! Tests of the conditions that the calls of `TreeStore` require of their caller.
ghost use Rattle.std.specs.Prelude.{◌≡◌, ◌≢◌, ◌+◌, ◌<◌, ◌^◌, ℕ, List, None, IsTrue, IsSome, IfSome};
ghost use Rattle.cs_tree_model.specs.Mode.{is_directory_mode};
ghost use Rattle.cs_tree_model.specs.Tree.{record_numbered, parent_numbered, number_in};
ghost use Rattle.cs_tree_model.specs.Tree.{content_numbered};
ghost use Rattle.cs_tree_model.specs.Stores.{CanStamp, CanStampParent, IsDirectoryNumbered};

use cs_names::Name;
use cs_tree_model::{Kind, TreeRead, is_directory_mode};

/// Whether there is such a file or directory, and its version can count one more change.
pub fn takes_changes<T: TreeRead>(tree: &T, number: u64) -> bool
    ensures there { IsTrue result → IsSome (record_numbered (T.tree tree.now) number) }
    ensures vers { IsTrue result → CanStamp (T.tree tree.now) number }
{
    match tree.record(number) {
        Some(file) => file.vers < u32::MAX,
        None => false,
    }
}

/// Whether it is a directory whose version can count one more change.
pub fn takes_entries<T: TreeRead>(tree: &T, number: u64) -> bool
    ensures directory { IsTrue result → IsDirectoryNumbered (T.tree tree.now) number }
    ensures vers { IsTrue result → CanStamp (T.tree tree.now) number }
{
    let Some(file) = tree.record(number) else {
        return false;
    };
    match file.kind {
        Kind::Directory => file.vers < u32::MAX,
        Kind::File { .. } => false,
    }
}

/// Whether it is a file, not a directory.
pub fn has_bytes<T: TreeRead>(tree: &T, number: u64) -> bool
    ensures { IsTrue result → IsSome (content_numbered (T.tree tree.now) number) }
{
    let Some(file) = tree.record(number) else {
        return false;
    };
    match file.kind {
        Kind::Directory => false,
        Kind::File { .. } => true,
    }
}

/// Whether the version of its directory can count one more change.
pub fn can_leave<T: TreeRead>(tree: &T, number: u64) -> bool
    ensures { IsTrue result → CanStampParent (T.tree tree.now) number }
{
    match tree.parent_of(number) {
        Some(directory) => takes_changes(tree, directory),
        None => false,
    }
}

/// Whether a change may set this length: it is below 2^63, and of a file. True if there is none.
pub fn takes_length<T: TreeRead>(tree: &T, number: u64, length: Option<u64>) -> bool
    ensures file { IsTrue result → IsSome length
        → IsSome (content_numbered (T.tree tree.now) number) }
    ensures room { IsTrue result → IfSome length (λ n. n < 2 ^ 63) }
{
    match length {
        Some(length) => length < 1 << 63 && has_bytes(tree, number),
        None => true,
    }
}

/// Whether a change may set this mode: it keeps a directory a directory, and a file a file. True if
/// there is none.
pub fn takes_mode<T: TreeRead>(tree: &T, number: u64, mode: Option<u32>) -> bool
    ensures { IsTrue result
        → IfSome mode
        (λ m. IfSome (record_numbered (T.tree tree.now) number)
        (λ r. is_directory_mode m ≡ is_directory_mode r.mode)) }
{
    let Some(mode) = mode else {
        return true;
    };
    match tree.record(number) {
        Some(file) => is_directory_mode(mode) == is_directory_mode(file.mode),
        None => false,
    }
}

/// Whether a change may set this name: the file isn't the root, and the name is free in its
/// directory, which can be stamped. True if there is none.
pub fn takes_name<T: TreeRead>(tree: &T, number: u64, name: &Option<Name>) -> bool
    ensures not_root { IsTrue result → IsSome name.now → number ≢ 0 }
    ensures free { IsTrue result
        → IfSome name.now
        (λ y. IfSome (parent_numbered (T.tree tree.now) number)
        (λ d. number_in (T.tree tree.now) d y ≡ None)) }
    ensures vers { IsTrue result → IsSome name.now → CanStampParent (T.tree tree.now) number }
{
    let Some(name) = name else {
        return true;
    };
    let Some(directory) = tree.parent_of(number) else {
        return false;
    };
    number != 0 && can_leave(tree, number) && tree.find_number(directory, name.as_str()).is_none()
}

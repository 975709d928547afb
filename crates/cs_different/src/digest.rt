//! Digests of trees: trees with different digests are different. Trees with equal digests are
//! compared, so a poor digest costs time, but never a wrong answer. (cs_same_states has digests of
//! its own, computed without making the tree.)
ghost use Rattle.std.specs.Prelude.{◌≡◌, ◌%◌, ◌^◌, fold, IfOk};
ghost use Rattle.std.specs.Option.{option_copied, option_map};
ghost use Rattle.cs_tree_model.specs.Record.{metadata_of};
ghost use Rattle.cs_tree_model.specs.Tree.{bytes_at, name_numbered, parent_numbered};
ghost use Rattle.cs_tree_model.specs.Tree.{record_numbered};
ghost use Rattle.cs_different.specs.Digests as model;
ghost use Rattle.cs_different.specs.Digests.{digest_at, digest_of, with_bytes, with_metadata};
ghost use Rattle.cs_different.specs.Digests.{with_name, with_part};

use cs_names::limits::FILE_BYTES;
use cs_names::{Name, UserName};
use cs_tree_model::TreeRead;
use std::alloc::{AllocError, Global};

/// The prime of the 64-bit hash function FNV-1a, by which digests are spread.
pub const PRIME: u64 = 0x100_0000_01b3;

/// The digest of a sequence to which one part is appended. `digest` is that of the sequence before.
#[tactic(auto, unfolding(crate::specs::Digests::with_part))]
pub fn mix(digest: u64, part: u64) -> u64
    ensures { result ≡ with_part digest part }
{
    (digest ^ part).wrapping_mul(PRIME)
}

/// The digest of a sequence to which these bytes are appended. `digest` is that of the sequence
/// before.
fn mix_bytes(digest: u64, bytes: &[u8]) -> u64
    ensures { result ≡ fold with_part digest bytes.now }
{
    let mut mixed = digest;
    for byte in bytes {
        mixed = mix(mixed, u64::from(*byte));
    }
    mixed
}

/// The digest of a sequence to which the bytes of the name are appended. `digest` is that of the
/// sequence before; it is returned unchanged if there is no name.
fn mix_name(digest: u64, name: Option<&Name>) -> u64
    ensures { result ≡ with_name digest (option_copied name.entry) }
{
    match name {
        Some(name) => mix_bytes(digest, name.as_bytes()),
        None => digest,
    }
}

/// The digest of a sequence to which the name of a user or a group is appended. `digest` is that of
/// the sequence before.
fn mix_user(digest: u64, user: &UserName) -> u64
    ensures { result ≡ fold with_part digest user.now }
{
    mix_bytes(digest, user.as_bytes())
}

/// The digest of a sequence to which an owner, group and mode are appended: those of the file or
/// directory with this number. `digest` is that of the sequence before; it is returned unchanged if
/// nothing has the number.
fn mix_metadata<T: TreeRead>(digest: u64, tree: &T, number: u64) -> u64
    ensures { result
        ≡ with_metadata digest (option_map metadata_of (record_numbered (T.tree tree.now) number)) }
{
    match tree.record(number) {
        Some(metadata) => {
            let owned = mix_user(digest, metadata.owner);
            let grouped = mix_user(owned, metadata.group);
            mix(grouped, u64::from(metadata.mode))
        }
        None => digest,
    }
}

/// The digest of a sequence to which a file's bytes are appended: those of the file with this
/// number, only the first FILE_BYTES if it has more. `digest` is that of the sequence before; it is
/// returned unchanged if no file has the number. The only error is that memory runs out.
fn mix_content<T: TreeRead>(
    alloc: Global,
    digest: u64,
    tree: &T,
    number: u64,
) -> Result<u64, AllocError>
    ensures { IfOk result (λ mixed. mixed
        ≡ with_bytes digest (bytes_at (T.tree tree.now) number 0 FILE_BYTES)) }
{
    match tree.read_at(alloc, number, 0, FILE_BYTES as usize)? {
        Some(bytes) => Ok(mix_bytes(digest, &bytes)),
        None => Ok(digest),
    }
}

/// The digest of a sequence to which all that a tree has under this number is appended: the number
/// of the directory, the name, owner, group and mode, and the bytes. `digest` is that of the
/// sequence before. The only error is that memory runs out.
#[tactic(auto, unfolding(crate::specs::Digests::digest_at))]
fn mix_number<T: TreeRead>(
    alloc: Global,
    digest: u64,
    tree: &T,
    number: u64,
) -> Result<u64, AllocError>
    ensures { IfOk result (λ mixed. mixed ≡ digest_at (T.tree tree.now) digest number) }
{
    let parent = mix(digest, tree.parent_of(number).unwrap_or(0));
    let named = mix_name(parent, tree.name_of(number));
    let owned = mix_metadata(named, tree, number);
    let mixed = mix_content(alloc, owned, tree, number)?;
    Ok(mixed)
}

/// The digest of a tree: of all that it has under each number, in the order of the numbers. Equal
/// trees have equal digests.
pub fn digest_tree<T: TreeRead>(alloc: Global, tree: &T) -> Result<u64, AllocError>
    ensures { IfOk result (λ digest. digest ≡ digest_of (T.tree tree.now)) }
{
    let mut digest = 0;
    let last = tree.last_number();
    for number in 0..last {
        digest = mix_number(alloc, digest, tree, number)?;
    }
    let whole = mix_number(alloc, digest, tree, last)?;
    Ok(whole)
}

//! What a client sees of a file: its qid, its name, its stat, and the size of its entry in a read
//! of its directory (stat(5), read(5)).
ghost use Rattle.std.specs.Prelude.{◌≡◌, ◌/◌, IfSome, length};
ghost use Rattle.std.specs.Option.{option_map};
ghost use Rattle.cs_tree_model.specs.Nexts.{entry_name};
ghost use Rattle.cs_tree_model.specs.Record.{metadata_of_ref};
ghost use Rattle.cs_wire.specs.Fields.{IsIn};
ghost use Rattle.cs_wire.specs.Messages.{qid_of as qid_value, stat_in as fields_of};
ghost use Rattle.cs_permit.specs.Shown.{entry_of, qid_at, qid_of, qid_or_zeros, shown_name};
ghost use Rattle.cs_permit.specs.Shown.{stat_as, stat_at, stat_of_file, stat_with, shown_length};
ghost use Rattle.cs_permit.specs.Sizes.{IsQid, IsShown, IsStat, numbers_shape};

use cs_names::limits::{NAME_BYTES, USER_NAME_BYTES};
use cs_names::{Name, UserName};
use cs_tree_model::{Kind, ListedEntry, Metadata, TreeRead};
use cs_wire::{Qid, StatRef};

/// The most bytes of a stat in a reply (stat(5)). No file's stat is longer: at most 51 bytes of
/// numbers and lengths, 255 of a name, and 64 of each of three user names. The sum is rounded up.
/// cs_run's `FileStat` writes this number out as 600.
pub const STAT_BYTES: usize = 600;

/// The qid of a file (intro(5)): the high byte of its mode, its version and its number.
pub fn qid_of(file: &Metadata) -> Qid
    ensures value { result ≡ qid_of (metadata_of_ref file.now) }
    ensures fits { IsQid result }
{
    qid_from(file.mode, file.vers, file.number)
}

/// The qid of a file of this mode, version and number. Its kind is the high byte of the mode.
fn qid_from(mode: u32, vers: u32, number: u64) -> Qid
    ensures kind { result.kind ≡ mode / 0x1000000 }
    ensures rest { (result.vers ≡ vers) × (result.path ≡ number) }
    ensures fits { IsQid result }
{
    Qid {
        kind: (mode >> 24) as u8,
        vers,
        path: number,
    }
}

/// The qid of a file, or zeros if `file` is None. A run passes only files that are there, so no
/// client sees the zeros.
pub fn qid_or_zeros(file: Option<Metadata>) -> Qid
    ensures value { result ≡ qid_or_zeros (option_map metadata_of_ref file.entry) }
    ensures fits { IsQid result }
{
    match file {
        Some(file) => qid_of(&file),
        None => Qid {
            kind: 0,
            vers: 0,
            path: 0,
        },
    }
}

/// The qid of the file of a number, which is looked up; zeros if no file has the number. A run asks
/// only for files that are there, so no client sees the zeros.
pub fn qid_at<T: TreeRead>(tree: &T, number: u64) -> Qid
    ensures value { result ≡ qid_at (T.tree tree.now) number }
    ensures fits { IsQid result }
{
    qid_or_zeros(tree.record(number))
}

/// The name of a file as a text. A message can have this text: it is short, and has no NUL.
pub fn name_text(name: &Name) -> &str
    ensures value { result.now ≡ name.now }
    ensures shown { IsShown NAME_BYTES result.now }
{
    name.as_str()
}

/// The name that a file has in its directory; `/` for the root and for a number that no file has.
pub fn shown_name<T: TreeRead>(tree: &T, number: u64) -> &str
    ensures value { result.now ≡ shown_name (T.tree tree.now) number }
    ensures shown { IsShown NAME_BYTES result.now }
{
    match tree.name_of(number) {
        Some(name) => name_text(name),
        None => "/",
    }
}

/// The length that a stat shows; 0 for a directory. (`size_of` of cs_tar has the same body.)
pub fn shown_length(kind: Kind) -> u64
    ensures { result ≡ shown_length kind }
{
    match kind {
        Kind::Directory => 0,
        Kind::File { length } => length,
    }
}

/// The name of a user as a text. A message can have this text: it is short, and has no NUL.
fn user_text(user: &UserName) -> &str
    ensures value { result.now ≡ user.now }
    ensures shown { IsShown USER_NAME_BYTES result.now }
{
    user.as_str()
}

/// The texts of a stat: the name, the owner, the group, and the user of the last change.
#[derive(Clone, Copy)]
struct StatTexts<'a> {
    name: &'a str,
    uid: &'a str,
    gid: &'a str,
    muid: &'a str,
}

/// The stat of these fields. Its type and dev are 0: they are for the server's kernel (stat(5)),
/// and this server has no use for them. `changes_fixed` compares those of a wstat with the same 0.
fn stat_with<'a>(
    qid: Qid,
    mode: u32,
    atime: u32,
    mtime: u32,
    length: u64,
    texts: StatTexts<'a>,
) -> StatRef<'a>
    requires { IsQid qid }
    ensures value { fields_of result ≡ stat_with qid mode atime mtime length texts.entry.name.now
        texts.entry.uid.now texts.entry.gid.now texts.entry.muid.now }
    ensures fits { IsIn numbers_shape (0, (0, (qid_value qid, (mode, (atime, (mtime, length)))))) }
{
    StatRef {
        kind: 0,
        dev: 0,
        qid,
        mode,
        atime,
        mtime,
        length,
        name: texts.name,
        uid: texts.uid,
        gid: texts.gid,
        muid: texts.muid,
    }
}

/// The stat of a file of that name (stat(5)), with borrowed texts. The name is a text of at most
/// NAME_BYTES bytes that a message can have, as `shown_name` and `name_text` give it. It allocates
/// nothing.
pub fn stat_of_file<'a>(name: &'a str, file: &Metadata<'a>) -> StatRef<'a>
    requires { IsShown NAME_BYTES name.now }
    ensures value { fields_of result ≡ stat_of_file name.now (metadata_of_ref file.now) }
    ensures fits { IsStat STAT_BYTES (fields_of result) }
{
    let texts = StatTexts {
        name,
        uid: user_text(file.owner),
        gid: user_text(file.group),
        muid: user_text(file.muid),
    };
    let length = shown_length(file.kind);
    stat_with(
        qid_of(file),
        file.mode,
        file.atime,
        file.mtime,
        length,
        texts,
    )
}

/// The stat of the file of a number (stat(5)), with borrowed texts; None if no file has the number.
/// The root's name is `/`. It allocates nothing.
pub fn stat_ref<T: TreeRead>(tree: &T, number: u64) -> Option<StatRef<'_>>
    ensures value { option_map fields_of result ≡ stat_at (T.tree tree.now) number }
    ensures fits { IfSome result (λ stat. IsStat STAT_BYTES (fields_of stat)) }
{
    let file = tree.record(number)?;
    let name = shown_name(tree, number);
    Some(stat_of_file(name, &file))
}

/// The stat of an entry of a directory (stat(5)), with borrowed texts; None if no file has the
/// entry's number. Its name is the entry's. It allocates nothing.
pub fn entry_stat<'a, T: TreeRead>(tree: &'a T, entry: ListedEntry<'a>) -> Option<StatRef<'a>>
    ensures value { option_map fields_of result ≡ stat_as (T.tree tree.now) entry.entry.number
        (entry_name entry.entry) }
    ensures fits { IfSome result (λ stat. IsStat STAT_BYTES (fields_of stat)) }
{
    let file = tree.record(entry.number)?;
    Some(stat_of_file(name_text(entry.name), &file))
}

/// The number of bytes of a directory's entry in a read of the directory, with the two of its size
/// (read(5)); 0 if no file has the entry's number.
pub fn entry_size<T: TreeRead>(tree: &T, entry: ListedEntry) -> usize
    ensures { result ≡ length (entry_of (stat_as (T.tree tree.now) entry.entry.number
        (entry_name entry.entry))) }
{
    match entry_stat(tree, entry) {
        Some(stat) => stat.entry_length(),
        // not for an entry that the tree lists: its file is there
        None => 0,
    }
}

//! One micro-operation, or one state, as a line of JSON. The whole list is made of them in
//! `json_listing`; the lines without JSON are in `printed`. The only error of these functions is
//! out of memory.
ghost use Rattle.std.specs.Prelude.{◌≡◌, IfOk, Some, string_bytes};
ghost use Rattle.std.specs.Option.{option_copied};
ghost use Rattle.cs_micro.specs.Texts.{kind_text, mode_text};
ghost use Rattle.cs_names.specs.Paths.{path_text};
ghost use Rattle.cs_list.specs.Json.{block_fields, create_fields, delete_fields, fields_text};
ghost use Rattle.cs_list.specs.Json.{file_fields, link_fields, move_fields, moved_fields};
ghost use Rattle.cs_list.specs.Json.{node_fields, quoted_text};
ghost use Rattle.cs_list.specs.Json.{op_line, places_array, quoted, quoted_or_null};
ghost use Rattle.cs_list.specs.Json.{recipe_fields, rights_fields, set_attr_fields};
ghost use Rattle.cs_list.specs.Json.{size_fields, state_line, target_fields};

use crate::profiles::Profiles;
use cs_entries::{FileKind, Node};
use cs_micro::MicroOp;
use cs_names::{Path, as_utf8};
use cs_plan::{Places, Recipe};
use cs_trace::{Rights, Target, Version};
use serde_json::Value;
use std::alloc::{AllocError, Global};
use std::fmt;

/// The path as a JSON string, with its quotation marks.
fn quoted_path(alloc: Global, path: &Path) -> Result<String, AllocError>
    ensures { IfOk result (λ text. string_bytes text ≡ quoted (path_text path.now)) }
{
    Value::String(path.to_string(alloc)?).to_string(alloc)
}

/// The path as a JSON string, with its quotation marks; `null` if there is none.
fn quoted_path_or_null(alloc: Global, path: Option<&Path>) -> Result<String, AllocError>
    ensures { IfOk result
        (λ text. string_bytes text ≡ quoted_or_null (option_copied path.entry)) }
{
    match path {
        Some(path) => quoted_path(alloc, path),
        None => String::from_str(alloc, "null"),
    }
}

/// The name of a user or a group as a JSON string, with its quotation marks.
fn quoted_name(alloc: Global, name: &str) -> Result<String, AllocError>
    ensures { IfOk result (λ text. string_bytes text ≡ quoted name.now) }
{
    Value::String(String::from_str(alloc, name)?).to_string(alloc)
}

/// Bytes as a JSON string, with its quotation marks; `null` if they are no text.
fn quoted_text(alloc: Global, bytes: &[u8]) -> Result<String, AllocError>
    ensures { IfOk result (λ text. string_bytes text ≡ quoted_text bytes.now) }
{
    match as_utf8(bytes) {
        Some(text) => quoted_name(alloc, text),
        None => String::from_str(alloc, "null"),
    }
}

/// JSON fields without braces: `node` is what a new entry is of; `file`, for a file or a symbolic
/// link, is its number; `target`, for a symbolic link only, is `bytes`, or `null` if they are no
/// text.
fn fields_of_node(alloc: Global, node: Node, bytes: &[u8]) -> Result<String, AllocError>
    ensures { IfOk result (λ text. string_bytes text ≡ node_fields node bytes.now) }
{
    match node {
        Node::Directory(_) => String::from_str(alloc, "\"node\":\"dir\""),
        Node::File(FileKind::Regular, file) => {
            format!(in alloc; "\"node\":\"file\",\"file\":{file}")
        }
        Node::File(FileKind::Symlink, file) => {
            let target = quoted_text(alloc, bytes)?;
            format!(in alloc; "\"node\":\"symlink\",\"file\":{file},\"target\":{target}")
        }
    }
}

/// JSON fields without braces: the kind, the path of a new entry, and what the entry is of. `bytes`
/// is the target of a symbolic link; for other nodes it isn't looked at.
fn fields_of_create(
    alloc: Global,
    path: &Path,
    node: Node,
    bytes: &[u8],
) -> Result<String, AllocError>
    ensures { IfOk result (λ text. string_bytes text ≡ create_fields path.now node bytes.now) }
{
    let quoted = quoted_path(alloc, path)?;
    let fields = fields_of_node(alloc, node, bytes)?;
    format!(in alloc; "\"kind\":\"create_dir_entry\",\"path\":{quoted},{fields}")
}

/// The word for what an entry holds or held: `dir`, `file` or `symlink`. (`node_word` of cs_micro
/// has the same body.)
fn kind_word(node: Node) -> &'static str
    ensures { result.now ≡ kind_text node }
{
    match node {
        Node::Directory(_) => "dir",
        Node::File(FileKind::Regular, _) => "file",
        Node::File(FileKind::Symlink, _) => "symlink",
    }
}

/// JSON fields without braces: the kind, the path of a deleted entry, and what the entry was of.
fn fields_of_delete(alloc: Global, path: &Path, node: Node) -> Result<String, AllocError>
    ensures { IfOk result (λ text. string_bytes text ≡ delete_fields path.now node) }
{
    let quoted = quoted_path(alloc, path)?;
    let word = kind_word(node);
    format!(in alloc; "\"kind\":\"delete_dir_entry\",\"path\":{quoted},\"node\":\"{word}\"")
}

/// JSON fields without braces: the kind, the path that an entry had, and its new path.
fn fields_of_paths(alloc: Global, from: &Path, to: &Path) -> Result<String, AllocError>
    ensures { IfOk result (λ text. string_bytes text ≡ moved_fields from.now to.now) }
{
    let quoted_from = quoted_path(alloc, from)?;
    let quoted_to = quoted_path(alloc, to)?;
    format!(in alloc; "\"kind\":\"move_dir_entry\",\"path\":{quoted_from},\"to\":{quoted_to}")
}

/// JSON fields without braces: those of `fields_of_paths`, and in a trace of the fourth version
/// `node`, what is moved. Earlier versions move only files, so they have no `node`.
fn fields_of_move(
    alloc: Global,
    version: Version,
    from: &Path,
    to: &Path,
    node: Node,
) -> Result<String, AllocError>
    ensures { IfOk result
        (λ text. string_bytes text ≡ move_fields version from.now to.now node) }
{
    let fields = fields_of_paths(alloc, from, to)?;
    if !version.is_fourth() {
        return Ok(fields);
    }
    let word = kind_word(node);
    format!(in alloc; "{fields},\"node\":\"{word}\"")
}

/// JSON fields without braces: the kind, the new path of a file that exists, and the file's number.
fn fields_of_link(alloc: Global, path: &Path, file: u32) -> Result<String, AllocError>
    ensures { IfOk result (λ text. string_bytes text ≡ link_fields path.now file) }
{
    let quoted = quoted_path(alloc, path)?;
    format!(in alloc; "\"kind\":\"link_dir_entry\",\"path\":{quoted},\"file\":{file}")
}

/// JSON fields without braces: one path of a file, `null` if it has none, and the file's number.
fn fields_of_file(alloc: Global, path: Option<&Path>, file: u32) -> Result<String, AllocError>
    ensures { IfOk result
        (λ text. string_bytes text ≡ file_fields (option_copied path.entry) file) }
{
    let quoted = quoted_path_or_null(alloc, path)?;
    format!(in alloc; "\"path\":{quoted},\"file\":{file}")
}

/// JSON fields without braces: the kind, the file, and its new size in bytes.
fn fields_of_size(
    alloc: Global,
    path: Option<&Path>,
    file: u32,
    length: u64,
) -> Result<String, AllocError>
    ensures { IfOk result
        (λ text. string_bytes text ≡ size_fields (option_copied path.entry) file length) }
{
    let fields = fields_of_file(alloc, path, file)?;
    format!(in alloc; "\"kind\":\"change_file_size\",{fields},\"length\":{length}")
}

/// JSON fields without braces: the kind, the file, the number of a block of it, the place in the
/// block of the first byte that is written, and how many bytes are written.
fn fields_of_block(
    alloc: Global,
    path: Option<&Path>,
    file: u32,
    block: u64,
    at: u64,
    count: usize,
) -> Result<String, AllocError>
    ensures { IfOk result
        (λ text. string_bytes text ≡ block_fields (option_copied path.entry) file block at count) }
{
    let fields = fields_of_file(alloc, path, file)?;
    format!(in alloc;
        "\"kind\":\"write_block\",{fields},\"block\":{block},\"at\":{at},\"count\":{count}"
    )
}

/// JSON fields without braces, of what has its rights set: of a file `path`, which is one of its
/// paths or None, and its number; of a directory its own path.
fn fields_of_target(
    alloc: Global,
    path: Option<&Path>,
    target: &Target,
) -> Result<String, AllocError>
    ensures { IfOk result
        (λ text. string_bytes text ≡ target_fields (option_copied path.entry) target.now) }
{
    match target {
        Target::File(file) => fields_of_file(alloc, path, *file),
        Target::Directory { path: own, .. } => {
            let quoted = quoted_path(alloc, own)?;
            format!(in alloc; "\"path\":{quoted}")
        }
    }
}

/// The permissions of owner, group and others.
#[derive(Clone, Copy)]
struct Mode {
    /// Nine bits: r, w and x of the owner, the group and others.
    permissions: u16,
}

impl fmt::Display for Mode {
    ghost output = { λ mode. Some (mode_text mode.permissions) };

    /// Writes three octal digits.
    fn fmt<W: fmt::Write>(&self, f: &mut fmt::Formatter<W>) -> fmt::Result {
        let permissions = self.permissions;
        let (first, second, third) = (permissions / 64, permissions / 8 % 8, permissions % 8);
        write!(f, "{first}{second}{third}")
    }
}

/// JSON fields without braces: the mode as three octal digits, the owner and the group.
fn fields_of_rights(alloc: Global, rights: &Rights) -> Result<String, AllocError>
    ensures { IfOk result (λ text. string_bytes text ≡ rights_fields rights.now) }
{
    let owner = quoted_name(alloc, rights.owner.as_str())?;
    let group = quoted_name(alloc, rights.group.as_str())?;
    let mode = Mode {
        permissions: rights.permissions,
    };
    format!(in alloc; "\"mode\":\"{mode}\",\"owner\":{owner},\"group\":{group}")
}

/// JSON fields without braces: the kind, what has its rights set, and its new rights.
fn fields_of_set_attr(
    alloc: Global,
    path: Option<&Path>,
    target: &Target,
    rights: &Rights,
) -> Result<String, AllocError>
    ensures { IfOk result (λ text. string_bytes text
        ≡ set_attr_fields (option_copied path.entry) target.now rights.now) }
{
    let target_fields = fields_of_target(alloc, path, target)?;
    let rights_fields = fields_of_rights(alloc, rights)?;
    format!(in alloc; "\"kind\":\"set_attr\",{target_fields},{rights_fields}")
}

/// JSON fields without braces: the kind of a micro-operation of a trace of this version, and the
/// fields of that kind. `path` is one path of the file whose size, block or rights it changes, None
/// if the file has no path; for other kinds it isn't looked at.
fn fields_of(
    alloc: Global,
    version: Version,
    op: &MicroOp,
    path: Option<&Path>,
) -> Result<String, AllocError>
    ensures { IfOk result
        (λ text. string_bytes text ≡ fields_text version (option_copied path.entry) op.now) }
{
    match op {
        MicroOp::CreateDirEntry {
            entry,
            node,
            bytes,
            ..
        } => fields_of_create(alloc, &entry.path, *node, bytes.as_slice()),
        MicroOp::DeleteDirEntry { entry, node } => fields_of_delete(alloc, &entry.path, *node),
        MicroOp::MoveDirEntry { from, to, node, .. } => {
            fields_of_move(alloc, version, &from.path, &to.path, *node)
        }
        MicroOp::LinkDirEntry { entry, file, .. } => fields_of_link(alloc, &entry.path, *file),
        MicroOp::ChangeFileSize { file, length } => fields_of_size(alloc, path, *file, *length),
        MicroOp::WriteBlock {
            file,
            block,
            at,
            bytes,
            ..
        } => fields_of_block(alloc, path, *file, *block, *at, bytes.as_slice().len()),
        MicroOp::SetAttr { target, rights } => fields_of_set_attr(alloc, path, target, rights),
        MicroOp::Say => String::from_str(alloc, "\"kind\":\"say\""),
    }
}

/// Places that are shown as a JSON array. `write_pick` of cs_every writes a line of a picks file in
/// the same form: change both.
#[derive(Clone, Copy)]
struct PlacesArray<'a> {
    /// In ascending order.
    places: &'a Places,
}

impl fmt::Display for PlacesArray<'_> {
    ghost output = { λ array. Some (places_array array.places.now) };

    /// Writes the places between brackets, with commas; `[]` if there is none.
    fn fmt<W: fmt::Write>(&self, f: &mut fmt::Formatter<W>) -> fmt::Result {
        if self.places.as_slice().is_empty() {
            return f.write_str("[]");
        }
        write!(f, "[{}]", self.places)
    }
}

/// A JSON object and a line feed: the place of a micro-operation, its kind and fields, `line`,
/// which is the number of the trace's line that it came from, and `needs`: its own place, and the
/// places of all that it needs, directly or through others. `path` is as in `fields_of`. The error
/// is out of memory.
pub fn op_line(
    alloc: Global,
    version: Version,
    place: usize,
    op: &MicroOp,
    path: Option<&Path>,
    line: usize,
    needs: &Places,
) -> Result<String, AllocError>
    ensures { IfOk result (λ text. string_bytes text
        ≡ op_line version place op.now (option_copied path.entry) line needs.now) }
{
    let fields = fields_of(alloc, version, op, path)?;
    let array = PlacesArray { places: needs };
    format!(in alloc; "{{\"op\":{place},{fields},\"line\":{line},\"needs\":{array}}}\n")
}

/// A recipe, which says which micro-operations a state has, shown as JSON fields.
#[derive(Clone, Copy)]
struct RecipeFields<'a> {
    /// Of a state of the plan.
    recipe: &'a Recipe,
}

impl fmt::Display for RecipeFields<'_> {
    ghost output = { λ fields. Some (recipe_fields fields.recipe.now) };

    /// Writes JSON fields without braces: the kind of the recipe, and the fields of that kind.
    fn fmt<W: fmt::Write>(&self, f: &mut fmt::Formatter<W>) -> fmt::Result {
        match self.recipe {
            Recipe::Prefix(end) => write!(f, "\"kind\":\"prefix\",\"end\":{end}"),
            Recipe::Hole(missing, end) => {
                write!(f, "\"kind\":\"hole\",\"missing\":{missing},\"end\":{end}")
            }
            Recipe::Pick(places) => {
                let array = PlacesArray { places };
                write!(f, "\"kind\":\"pick\",\"places\":{array}")
            }
        }
    }
}

/// A JSON object and a line feed: the number of a state, the kind and fields of its recipe, how
/// many acknowledged lines it has, as `same` the number `first` of the first state with an equal
/// tree, which may be its own, and the profiles whose file systems may leave it.
pub fn state_line(
    alloc: Global,
    number: usize,
    recipe: &Recipe,
    says: u32,
    first: u32,
    profiles: Profiles,
) -> Result<String, AllocError>
    ensures { IfOk result (λ text. string_bytes text
        ≡ state_line number recipe.now says first profiles) }
{
    let fields = RecipeFields { recipe };
    let array = profiles.array();
    format!(in alloc;
        "{{\"state\":{number},{fields},\"says\":{says},\"same\":{first},\"profiles\":{array}}}\n"
    )
}

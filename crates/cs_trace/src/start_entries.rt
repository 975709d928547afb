//! Adds a file, a symbolic link or a directory to the start. After a fault, the caller drops the
//! state, so no clause says what is left of it. The directory of the last start line is kept in the
//! tree, because the next line is most often in it, too.
ghost use Rattle.std.specs.Prelude.{◌≡◌, ◌≢◌, ◌∷◌, ◌++◌, ◌<◌, ◌^◌, [], IfErr, IfOk, OnOk, Some};
ghost use Rattle.std.specs.Prelude.{Err};
ghost use Rattle.std.specs.Prelude.{length};
ghost use Rattle.cs_entries.specs.Paths.{at_path, entry_in};
ghost use Rattle.cs_entries.specs.Tables.{held_in};
ghost use Rattle.cs_entries.specs.declared.node.Node.TheVariants.{Directory};
ghost use Rattle.cs_start.specs.Entries.{size_of};
ghost use Rattle.cs_trace.specs.Kept.{Freely, IsBounded, IsStarting, parent_number, state_of};
ghost use Rattle.cs_trace.specs.Names.{claims_by};
ghost use Rattle.cs_trace.specs.Outcomes.{Leaves};
ghost use Rattle.cs_trace.specs.Putting.{is_too_large, node_by};
ghost use Rattle.cs_trace.specs.States.{bytes_of, entry_for, start_at};
ghost use Rattle.cs_trace.specs.declared.fault.TraceFaultKind.TheVariants.{Memory};
ghost use Rattle.cs_trace_lines.specs.Said.{content_of};
ghost use Rattle.cs_tree_model.specs.Tree.{parent_path};

use crate::fault::TraceFaultKind;
use crate::judge::{is_over_limits, parent_by};
use crate::limits::most_bytes;
use crate::put_start::{last_name, put_entry, put_spelled};
use crate::state::LinesSoFar;
use crate::tree::Above;
use cs_entries::{FileKind, Node};
use cs_names::Path;
use cs_start::{LastDirectory, PathText, Rights, Shared, StartEntry};
use cs_trace_lines::StartContent;
use cs_tree_model::Content;
use std::alloc::{AllocError, Global};

/// How many bytes a file with this content has; of a symbolic link, its target; 0 for a directory.
fn size_of(content: &StartContent) -> u64
    ensures { result ≡ size_of (bytes_of (content_of content.now)) }
{
    match content {
        StartContent::Directory => 0,
        StartContent::File(bytes) => bytes.len(),
        StartContent::Symlink(target) => target.len() as u64,
    }
}

/// The content as that of a record: a directory has none, a file its bytes (those of no part are
/// zero), and a symbolic link its target. The bytes are moved if they are already in one piece.
fn record_content(alloc: Global, content: StartContent) -> Result<Content, AllocError>
    ensures { IfOk result (λ kept. kept ≡ bytes_of (content_of content)) }
{
    match content {
        StartContent::Directory => Ok(Content::directory()),
        StartContent::File(bytes) => Ok(Content::file(bytes.into_bytes(alloc)?)),
        StartContent::Symlink(target) => Ok(Content::file(target.into_bytes())),
    }
}

/// What a start line makes under the name in the directory: a file or a symbolic link with the next
/// number of a file, or a directory with the number that `Homes::number_for` gives it.
fn new_node(state: &LinesSoFar, directory: u32, name: &str, content: &StartContent) -> Node
    requires files { length state.now.sizes.items < 2 ^ 32 }
    requires directories { length state.now.homes < 2 ^ 32 }
    ensures { result
        ≡ node_by (state_of state.now) (entry_in directory name.now) (content_of content.now) }
{
    let file = state.sizes.len() as u32;
    match content {
        StartContent::Directory => {
            Node::Directory(state.homes.number_for(state.version, directory, name))
        }
        StartContent::File(_) => Node::File(FileKind::Regular, file),
        StartContent::Symlink(_) => Node::File(FileKind::Symlink, file),
    }
}

/// What the start keeps of what a start line makes under the name in the directory: its node, its
/// rights and its content. `own` is true of files and symbolic links: the path is the one that they
/// were made at. The name of the root is empty.
pub(crate) fn new_entry(
    alloc: Global,
    state: &LinesSoFar,
    directory: u32,
    name: &str,
    rights: Shared<Rights>,
    content: StartContent,
) -> Result<StartEntry, AllocError>
    requires files { length state.now.sizes.items < 2 ^ 32 }
    requires directories { length state.now.homes < 2 ^ 32 }
    ensures { IfOk result (λ entry. entry ≡ entry_for
        (node_by (state_of state.now) (entry_in directory name.now) (content_of content))
        (claims_by rights) (content_of content)) }
{
    let node = new_node(state, directory, name, &content);
    let own = match node {
        Node::Directory(_) => false,
        Node::File(..) => true,
    };
    let content = Shared::new(alloc, record_content(alloc, content)?)?;
    Ok(StartEntry {
        node,
        own,
        rights,
        content,
    })
}

/// The directory above the path, which `text` spells. Nothing there is NoParent, and a file or a
/// symbolic link is NotDir. The directory of the last start line isn't looked up again. If another
/// directory has a long text, its entries may be kept apart from now on, which makes it faster to
/// insert many (`StartMap::keep_apart`); what the state means stays the same.
fn find_above(
    alloc: Global,
    state: &mut LinesSoFar,
    path: &Path,
    text: &PathText<'_>,
) -> Result<Above, TraceFaultKind>
    requires { text.now ≡ path.now }
    ensures same { OnOk result (state_of state.new ≡ state_of state.old) }
    ensures above { IfOk result (λ above. above.directory ≡ parent_path path.now) }
    ensures is_there { IfOk result (λ above.
        at_path (held_in state.old.tree) above.directory ≡ Some (Directory above.number)) }
    ensures fault { IfErr result (λ kind. kind ≢ Memory
        → parent_number state.old.tree path.now ≡ Err kind) }
{
    if let Some(above) = state.tree.take_directory(path) {
        return Ok(above);
    }
    let directory = LastDirectory::parent_of(alloc, path, text)?;
    let number = parent_by(state.tree.at(directory.path().names()))?;
    if directory.has_long_text() {
        state.start.keep_apart(alloc, &directory)?;
    }
    Ok(Above { directory, number })
}

/// Whether one more entry with this content, at a path of so many names, would be over a limit:
/// TREE_RECORDS records, TRACE_PATH_NAMES names, or `most_bytes` of the version.
fn is_too_large(state: &LinesSoFar, names: usize, content: &StartContent) -> bool
    ensures { result ≡ is_too_large (state_of state.now) names (content_of content.now) }
{
    is_over_limits(state.made, names) || size_of(content) > most_bytes(state.version)
}

/// Adds a new entry at the path, in the directory `above`, which is then kept for the next line.
/// `names` is how many names the path has; the caller knows it, so they aren't counted again.
/// Anything at the path is Exists; if nothing is there, an entry over a limit (`is_too_large`) is
/// TooLarge.
fn add_entry_in(
    alloc: Global,
    state: &mut LinesSoFar,
    path: Path,
    names: usize,
    above: Above,
    rights: Shared<Rights>,
    content: StartContent,
) -> Result<(), TraceFaultKind>
    requires bounded { IsBounded (state_of state.old) }
    requires starting { IsStarting (state_of state.old) }
    requires names { names ≡ length path }
    requires some { path ≢ [] }
    requires above { above.directory ≡ parent_path path }
    requires is_there { at_path (held_in state.old.tree) above.directory
        ≡ Some (Directory above.number) }
    ensures { Leaves
        (start_at (state_of state.old) path (claims_by rights) (content_of content))
        result (state_of state.new) Freely }
{
    if is_too_large(state, names, &content) {
        return Err(match state.tree.at(path.names()) {
            None => TraceFaultKind::TooLarge,
            Some(_) => TraceFaultKind::Exists,
        });
    }
    let name = last_name(&path);
    let entry = new_entry(alloc, state, above.number, name, rights, content)?;
    let replaced = put_entry(alloc, state, path, above.number, entry)?;
    if replaced {
        return Err(TraceFaultKind::Exists);
    }
    state.tree.remember_directory(above);
    Ok(())
}

/// As `add_entry_in`, for a path that is given as its text: it is that of the directory `above`
/// with the name. Faster, because the names of the path are copied only if the start must keep them
/// (`put_spelled`), or if an entry is over a limit.
pub(crate) fn add_sibling(
    alloc: Global,
    state: &mut LinesSoFar,
    path: &PathText<'_>,
    above: Above,
    name: &str,
    rights: Shared<Rights>,
    content: StartContent,
) -> Result<(), TraceFaultKind>
    requires bounded { IsBounded (state_of state.old) }
    requires starting { IsStarting (state_of state.old) }
    requires named { path.now ≡ above.directory ++ name.now ∷ [] }
    requires is_there { at_path (held_in state.old.tree) above.directory
        ≡ Some (Directory above.number) }
    ensures { Leaves
        (start_at (state_of state.old) path.now (claims_by rights) (content_of content))
        result (state_of state.new) Freely }
{
    if is_too_large(state, path.len(), &content) {
        let path = path.to_path(alloc)?;
        return Err(match state.tree.at(path.names()) {
            None => TraceFaultKind::TooLarge,
            Some(_) => TraceFaultKind::Exists,
        });
    }
    let entry = new_entry(alloc, state, above.number, name, rights, content)?;
    let replaced = put_spelled(alloc, state, path, above.number, name, entry)?;
    if replaced {
        return Err(TraceFaultKind::Exists);
    }
    state.tree.remember_directory(above);
    Ok(())
}

/// Adds a file, a symbolic link or a directory with this content at the path that the text spells.
/// The faults are those of `find_above` (NoParent, NotDir), and then those of `add_entry_in`
/// (Exists, TooLarge).
pub(crate) fn add_entry(
    alloc: Global,
    state: &mut LinesSoFar,
    text: &PathText<'_>,
    rights: Shared<Rights>,
    content: StartContent,
) -> Result<(), TraceFaultKind>
    requires bounded { IsBounded (state_of state.old) }
    requires starting { IsStarting (state_of state.old) }
    requires some { text.now ≢ [] }
    ensures { Leaves
        (start_at (state_of state.old) text.now (claims_by rights) (content_of content))
        result (state_of state.new) Freely }
{
    let path = text.to_path(alloc)?;
    let above = find_above(alloc, state, &path, text)?;
    add_entry_in(alloc, state, path, text.len(), above, rights, content)
}

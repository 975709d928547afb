//! Reads (read(5)).
ghost use Rattle.std.specs.Prelude.{◌≡◌, ◌+◌, IfOk, OnErr, min, true};
ghost use Rattle.cs_run.specs.Outcomes.{has_some};
ghost use Rattle.cs_permit.specs.Rules.{is_directory, on_file};
ghost use Rattle.std.specs.Option.{option_copied};
ghost use Rattle.cs_run.specs.Pages.{end_after, entries_given, data_read, page_of, place_after};
ghost use Rattle.cs_tree_model.specs.Tree.{IsTree};

use crate::answer::Data;
use crate::page::{Page, read_page};
use cs_fids::Place;
use cs_names::Name;
use cs_permit::rules::is_directory;
use cs_permit::{ReadCall, name_before};
use cs_tree_model::TreeRead;
use std::alloc::{AllocError, Global};

/// The offset after a read of `count` bytes from the offset `start`; the greatest offset if the sum
/// would overflow.
fn end_after(start: u64, count: usize) -> u64
    ensures { result ≡ end_after start count }
{
    start.saturating_add(count as u64)
}

/// A copy of the name; None if there is no name. The error is out of memory. `try_clone_name` of
/// cs_overlay is the same, but private there: change both.
fn try_clone_name(name: Option<&Name>) -> Result<Option<Name>, AllocError>
    ensures { IfOk result (λ copy. copy ≡ option_copied name.entry) }
{
    match name {
        Some(name) => Ok(Some(name.try_clone()?)),
        None => Ok(None),
    }
}

/// The place from which the next read of the directory continues, after this page; None if the page
/// has no entry. The error is out of memory.
fn place_after(call: &ReadCall, page: &Page) -> Result<Option<Place>, AllocError>
    ensures value { IfOk result (λ place. place ≡ place_after call.now (page_of page.now)) }
    ensures memory { OnErr result (has_some (page_of page.now).bytes ≡ true) }
{
    if page.bytes.is_empty() {
        return Ok(None);
    }
    Ok(Some(Place {
        end: end_after(call.offset, page.bytes.len()),
        last: try_clone_name(page.last)?,
    }))
}

/// Reads, in a tree that is legal (`IsTree`), as many whole entries of a directory as fit into the
/// bytes that the call asks for, from the call's place on; perhaps none. The error is out of
/// memory, which happens only if an entry fits.
fn read_entries<T: TreeRead>(alloc: Global, call: &ReadCall, tree: &T) -> Result<Data, AllocError>
    requires { IsTree (T.tree tree.now) }
    ensures value { IfOk result (λ read. read ≡ entries_given (T.tree tree.now) call.now) }
    ensures memory { OnErr result (has_some (entries_given (T.tree tree.now) call.now).bytes
        ≡ true) }
{
    let start = name_before(call);
    let page = read_page(alloc, tree, call.number, call.count as usize, start)?;
    let place = place_after(call, &page)?;
    Ok(Data::new(page.bytes, place))
}

/// Whether the number is that of a directory; false of another file, and if there is no such file.
/// The clause `is_tree` is here because `read_entries` requires it.
fn is_of_directory<T: TreeRead>(tree: &T, number: u64) -> bool
    ensures value { result ≡ on_file (T.tree tree.now) number is_directory }
    ensures is_tree { IsTree (T.tree tree.now) }
{
    match tree.record(number) {
        Some(file) => is_directory(&file),
        None => false,
    }
}

/// Reads bytes of a file, or whole entries of a directory. A read of a file that is gone returns no
/// bytes, and so does one past the end. The error is out of memory, which happens only for a read
/// that returns a byte.
// the bytes are asked for first, since a file is then looked up only once
pub fn read<T: TreeRead>(alloc: Global, call: &ReadCall, tree: &T) -> Result<Data, AllocError>
    ensures value { IfOk result (λ read. read ≡ data_read (T.tree tree.now) call.now) }
    ensures memory { OnErr result (has_some (data_read (T.tree tree.now) call.now).bytes ≡ true) }
{
    match tree.read_at(alloc, call.number, call.offset, call.count as usize)? {
        Some(bytes) => Ok(Data::new(bytes, None)),
        None if is_of_directory(tree, call.number) => read_entries(alloc, call, tree),
        None => Ok(Data::new(Vec::new(alloc), None)),
    }
}

//! As many whole entries of a directory as fit (read(5)).
ghost use Rattle.std.specs.Prelude.{◌≡◌, length, IfOk, OnErr, Some, true};
ghost use Rattle.std.specs.Option.{option_copied};
ghost use Rattle.cs_permit.specs.Shown.{entry_bytes, stat_in};
ghost use Rattle.cs_wire.specs.Messages.{IsEntry, stat_in as fields_of};
ghost use Rattle.cs_permit.specs.Sizes.{IsStat};
ghost use Rattle.cs_run.specs.Outcomes.{has_some};
ghost use Rattle.cs_run.specs.Pages.{page_after, page_of};
ghost use Rattle.cs_tree_model.specs.Nexts.{entry_name};
ghost use Rattle.cs_tree_model.specs.Tree.{IsTree, number_in};

use cs_names::Name;
use cs_permit::entry_stat;
use cs_tree_model::{ListedEntry, TreeRead, laws};
use cs_wire::StatRef;
use std::alloc::{AllocError, Global};

/// Consecutive entries of a directory, as an Rread has them, and where they end.
#[derive(Drop)]
pub struct Page<'a> {
    /// The stat of each entry, one after another (stat(5)).
    pub bytes: Vec<u8>,
    /// The name of the last entry. If there is none, the name after which the first entry was
    /// looked for: None for the start of the directory.
    pub last: Option<&'a Name>,
}

/// The stat of the file that an entry of the directory names, of at most 600 bytes (the bound of
/// `FileStat`).
// the entry's file is found by its number, and is in the tree since the entry is: only the contract
// needs the directory
fn stat_of_entry<'a, T: TreeRead>(
    tree: &'a T,
    _directory: u64,
    entry: ListedEntry<'a>,
) -> StatRef<'a>
    requires is_tree { IsTree (T.tree tree.now) }
    requires found { number_in (T.tree tree.now) _directory (entry_name entry)
        ≡ Some entry.number }
    ensures value { stat_in (T.tree tree.now) _directory (entry_name entry.entry)
        ≡ Some (fields_of result) }
    ensures fits { IsStat 600 (fields_of result) }
    ensures entry { IsEntry (fields_of result) }
{
    entry_stat(tree, entry).unwrap()
}

/// As many whole entries of a directory as fit into `room` bytes, perhaps none: from the first
/// after the name `start` on, or from the directory's first if `start` is None. The error is out of
/// memory, which happens only if an entry fits.
pub(crate) fn read_page<'a, T: TreeRead>(
    alloc: Global,
    tree: &'a T,
    directory: u64,
    room: usize,
    start: Option<&'a Name>,
) -> Result<Page<'a>, AllocError>
    requires { IsTree (T.tree tree.now) }
    ensures value { IfOk result (λ page. page_of page ≡ page_after (T.tree tree.now) directory room
        (option_copied start.entry)) }
    ensures memory { OnErr result (has_some (page_after (T.tree tree.now) directory room
        (option_copied start.entry)).bytes ≡ true) }
{
    // after each entry the rest of the directory's names is left
    laws::listing_goes_on(tree, directory);
    let mut bytes: Vec<u8> = Vec::new(alloc);
    let mut last = start;
    let mut left = room;
    while let Some(entry) = tree.entry_after(directory, last, None) {
        let stat = stat_of_entry(tree, directory, entry);
        let size = stat.entry_length();
        if size > left {
            break;
        }
        stat.encode_entry(&mut bytes)?;
        left -= size;
        last = Some(entry.name);
    }
    Ok(Page { bytes, last })
}

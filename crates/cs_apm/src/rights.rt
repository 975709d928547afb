//! Owner, group and permissions of the files and directories as they are made. Here `rights` means
//! all three. If memory runs out while rights are appended to a table, some may have been appended;
//! the callers here then drop the table.
ghost use Rattle.std.specs.Prelude.{◌≡◌, [], ◌∷◌, ◌<◌, ◌++◌, length, map, IfOk, OnOk};
ghost use Rattle.std.specs.Prelude.{slice_index_or};
ghost use Rattle.std.specs.List.{All};
ghost use Rattle.cs_tree_model.specs.Record.{metadata_of_ref};
ghost use Rattle.cs_apm.specs.States.{directories_made, no_record, owners_made, rights_in};
ghost use Rattle.cs_apm.specs.States.{rights_of};

use cs_entries::Node;
use cs_micro::MicroOp;
use cs_trace::{Rights, Start};
use cs_tree_model::Metadata;
use std::alloc::{AllocError, Global};

/// A copy of the rights of a record at the start. The permissions are the lowest nine bits of its
/// mode.
fn rights_of(start: &Metadata<'_>) -> Result<Rights, AllocError>
    ensures { IfOk result (λ rights. rights ≡ rights_in (metadata_of_ref start.now)) }
{
    Ok(Rights {
        owner: start.owner.try_clone()?,
        group: start.group.try_clone()?,
        permissions: (start.mode % 512) as u16,
    })
}

/// Appends the rights of the records at these places, in the order of the places.
fn push_starts(table: &mut Vec<Rights>, records: &Start, places: &[u32]) -> Result<(), AllocError>
    requires { All (λ place. place < length records.now) places.now }
    ensures { OnOk result (table.new.items ≡ table.old.items
        ++ map (λ place. rights_of (slice_index_or records.now place no_record).1) places.now) }
{
    for place in places {
        let rights = rights_of(&records.metadata(*place as usize))?;
        table.push(rights)?;
    }
    Ok(())
}

/// Appends the rights of the file or symbolic link that the micro-operation makes; nothing if it
/// makes none.
fn push_made_rights(table: &mut Vec<Rights>, op: &MicroOp) -> Result<(), AllocError>
    ensures { OnOk result (table.new.items ≡ table.old.items ++ owners_made (op.now ∷ [])) }
{
    if let MicroOp::CreateDirEntry {
        node: Node::File(..),
        rights,
        ..
    } = op
    {
        table.push(rights.try_clone()?)?;
    }
    Ok(())
}

/// The rights of each file and symbolic link as it is made, by its number: first of those at the
/// start, whose records are at these places, and then of those that micro-operations make.
pub fn owners_of(
    alloc: Global,
    records: &Start,
    places: &[u32],
    ops: &[MicroOp],
) -> Result<Vec<Rights>, AllocError>
    requires { All (λ place. place < length records.now) places.now }
    ensures { IfOk result (λ owners. owners.items
        ≡ map (λ place. rights_of (slice_index_or records.now place no_record).1) places.now
        ++ owners_made ops.now) }
{
    let mut owners = Vec::new(alloc);
    push_starts(&mut owners, records, places)?;
    for op in ops {
        push_made_rights(&mut owners, op)?;
    }
    Ok(owners)
}

/// Appends the rights of the directory that the micro-operation makes; nothing if it makes none.
fn push_directory_rights(table: &mut Vec<Rights>, op: &MicroOp) -> Result<(), AllocError>
    ensures { OnOk result (table.new.items
        ≡ table.old.items ++ directories_made (op.now ∷ [])) }
{
    if let MicroOp::CreateDirEntry {
        node: Node::Directory(_),
        rights,
        ..
    } = op
    {
        table.push(rights.try_clone()?)?;
    }
    Ok(())
}

/// The rights of each directory at the start by its number, whose records are at these places, and
/// then those of each making of a directory. In version 4 of the trace these are by number, too.
/// Before, a directory that is made again keeps its number, so a number's rights may be another
/// directory's: `directory_left` replaces them by those of the making.
pub fn directories_of(
    alloc: Global,
    records: &Start,
    places: &[u32],
    ops: &[MicroOp],
) -> Result<Vec<Rights>, AllocError>
    requires { All (λ place. place < length records.now) places.now }
    ensures { IfOk result (λ directories. directories.items
        ≡ map (λ place. rights_of (slice_index_or records.now place no_record).1) places.now
        ++ directories_made ops.now) }
{
    let mut directories = Vec::new(alloc);
    push_starts(&mut directories, records, places)?;
    for op in ops {
        push_directory_rights(&mut directories, op)?;
    }
    Ok(directories)
}

//! A plain store of a state, made from what the slots of its entries hold.
ghost use Rattle.std.specs.Prelude.{◌≡◌, ◌<◌, ◌≤◌, Some, length, IfOk};
ghost use Rattle.std.specs.List.{All};
ghost use Rattle.cs_tree_model.specs.Fresh.{IsNested, fresh_record, with_numbers_from};
ghost use Rattle.cs_tree_model.specs.Maps.Values.{map_entries};
ghost use Rattle.cs_apm.specs.Files.{AreFiles};
ghost use Rattle.cs_apm.specs.Contents.{IsSmall};
ghost use Rattle.cs_apm.specs.Slots.{AreAscending, AreKnown, IsKnown, table_of_slots};
ghost use Rattle.cs_apm.specs.States.{kind_bit, record_of, record_with, records_of, start_state};
ghost use Rattle.cs_apm.specs.States.{state_of, tree_of_state};

use crate::files::bytes_left;
use crate::owners::{directory_left, owner_left};
use crate::tables::Tables;
use crate::walk::nodes_at_paths;
use cs_entries::{FileKind, Node};
use cs_micro::MicroOp;
use cs_names::Path;
use cs_names::laws::know;
use cs_trace::{Rights, Trace};
use cs_tree::PlainTree;
use cs_tree_model::{Content, DMDIR, DMSYMLINK, Record};
use std::alloc::{AllocError, Global};
use std::collections::BTreeMap;

/// A record that no client has changed: version and times are 0, and the user who changed it last
/// (muid) is the owner. `bit` is DMDIR for a directory, DMSYMLINK for a symbolic link, and 0 for a
/// file. Of the permissions, the lowest nine bits count. `unchanged_metadata` of cs_state gives the
/// same fields.
fn record_with(
    number: u64,
    rights: &Rights,
    bit: u32,
    content: Content,
) -> Result<Record, AllocError>
    requires { bit ≤ DMDIR }
    ensures { IfOk result (λ made. made
        ≡ fresh_record number (record_with rights.now bit content)) }
{
    Ok(Record {
        number,
        vers: 0,
        owner: rights.owner.try_clone()?,
        group: rights.group.try_clone()?,
        mode: bit + u32::from(rights.permissions % 512),
        atime: 0,
        mtime: 0,
        muid: rights.owner.try_clone()?,
        content,
    })
}

/// The bit that a file of this kind has in its mode above the permissions: DMSYMLINK of 9P2000.u
/// for a symbolic link, 0 for a regular file. (`kind_bit` of cs_state has the same body.)
fn kind_bit(kind: FileKind) -> u32
    ensures { result ≡ kind_bit kind }
{
    match kind {
        FileKind::Regular => 0,
        FileKind::Symlink => DMSYMLINK,
    }
}

/// The record of the file, symbolic link or directory `node` after the members of a set, which are
/// at these places. `number` is the record's number in the tree, not the node's.
fn record_at(
    alloc: Global,
    number: u64,
    trace: &Trace,
    ops: &[MicroOp],
    tables: &Tables,
    places: &[u32],
    node: Node,
) -> Result<Record, AllocError>
    requires files { AreFiles trace.now ops.now tables.now }
    requires known { IsKnown (length tables.now.directories.items)
        (length tables.now.owners.items) (Some node) }
    requires small { All IsSmall ops.now }
    requires inside { All (λ place. place < length ops.now) places.now }
    ensures { IfOk result (λ made. made
        ≡ fresh_record number
        (record_of (state_of (start_state trace.now) ops.now places.now) node)) }
{
    match node {
        Node::Directory(directory) => {
            let rights = directory_left(&tables.directories, ops, places, directory);
            record_with(number, rights, DMDIR, Content::directory())
        }
        Node::File(kind, file) => {
            let bytes = bytes_left(
                alloc,
                trace,
                ops,
                &tables.starts,
                &tables.makings,
                &tables.changed,
                places,
                file,
            )?;
            let owner = owner_left(&tables.owners, ops, places, file);
            record_with(number, owner, kind_bit(kind), Content::file(bytes))
        }
    }
}

/// The records of what is at these paths, after the members of a set, which are at these places.
/// They are in the order of paths and numbered from 0: a file with several paths has a record for
/// each.
fn records_of_nodes(
    alloc: Global,
    trace: &Trace,
    ops: &[MicroOp],
    tables: &Tables,
    places: &[u32],
    nodes: BTreeMap<Path, Node>,
) -> Result<Vec<(Path, Record)>, AllocError>
    requires files { AreFiles trace.now ops.now tables.now }
    requires known { All (λ x. IsKnown (length tables.now.directories.items)
        (length tables.now.owners.items) (Some x.1)) nodes.entries }
    requires small { All IsSmall ops.now }
    requires inside { All (λ place. place < length ops.now) places.now }
    ensures { IfOk result (λ records. records.items
        ≡ with_numbers_from 0
        (map_entries (record_of (state_of (start_state trace.now) ops.now places.now))
        nodes.entries)) }
{
    let mut records = Vec::new(alloc);
    for (path, node) in nodes {
        let number = records.len() as u64;
        let record = record_at(alloc, number, trace, ops, tables, places, node)?;
        records.push((path, record))?;
    }
    Ok(records)
}

/// The store of the state of a set, whose members are at these places. The caller has made the
/// members' steps in the slots; here each path gets its record, with the bytes and the owner that
/// the members leave. The slots aren't changed. That the entries are a tree (`nested`) is a law of
/// allowed sets, `states_are_trees`.
pub fn store_of(
    alloc: Global,
    trace: &Trace,
    ops: &[MicroOp],
    tables: &Tables,
    places: &[u32],
    slots: &[Option<Node>],
) -> Result<PlainTree, AllocError>
    requires files { AreFiles trace.now ops.now tables.now }
    requires long { length slots.now ≡ length tables.now.entries.items }
    requires known { AreKnown (length tables.now.directories.items)
        (length tables.now.owners.items) slots.now }
    requires root { 0 < length tables.now.directories.items }
    requires small { All IsSmall ops.now }
    requires inside { All (λ place. place < length ops.now) places.now }
    requires ascending { AreAscending tables.now.entries.items }
    requires same { (state_of (start_state trace.now) ops.now places.now).entries
        ≡ table_of_slots tables.now.entries.items slots.now }
    requires deep { length (state_of (start_state trace.now) ops.now places.now).directories
        ≡ length tables.now.directories.items }
    requires nested { IsNested
        (records_of (state_of (start_state trace.now) ops.now places.now)) }
    ensures { IfOk result (λ tree. tree
        ≡ tree_of_state (state_of (start_state trace.now) ops.now places.now)) }
{
    // No directory is below itself, so no path has more names.
    let deep = tables.directories.len() + 1;
    let nodes = nodes_at_paths(alloc, &tables.entries, slots, deep)?;
    // By the contract of `len`, the map's paths ascend.
    know(nodes.len());
    let records = records_of_nodes(alloc, trace, ops, tables, places, nodes)?;
    PlainTree::from_records(alloc, records)
}

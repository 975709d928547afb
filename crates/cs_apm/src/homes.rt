//! The entries of the records at the start, each with what it holds there. The nodes are those of
//! the records, in their order: what is at each path.
ghost use Rattle.std.specs.Prelude.{◌≡◌, ◌≤◌, ◌<◌, ◌++◌, [], Some, length, map, IfOk, OnOk};
ghost use Rattle.std.specs.Prelude.{slice_index_or};
ghost use Rattle.std.specs.FinMap.{entries, get};
ghost use Rattle.std.specs.List.{flat_map};
ghost use Rattle.std.specs.List.Sorted.{IsStrictlySortedBy};
ghost use Rattle.cs_tree_model.specs.Tree.{path_cmp};
ghost use Rattle.cs_trace.specs.Judging.{directory_number};
ghost use Rattle.cs_trace.specs.Traces.{held_by_path, paths_of_records};
ghost use Rattle.cs_apm.specs.Held.{node_at, nodes_by_path};

use cs_entries::entry::copy_name;
use cs_entries::{Entry, Node};
use cs_names::{Names, Path};
use cs_trace::Start;
use std::alloc::{AllocError, Global};

/// The path of each record, in the order of the records.
fn paths_of(alloc: Global, records: &Start) -> Result<Vec<Path>, AllocError>
    ensures { IfOk result (λ paths. paths.items ≡ map (λ e. e.0) records.now) }
{
    let mut paths = Vec::new(alloc);
    for place in 0..records.len() {
        paths.push(records.path_of(alloc, place)?)?;
    }
    Ok(paths)
}

/// The number of the directory; 0 for a file or a symbolic link, which has no number of a
/// directory. In the tree of a trace none of them has an entry in it.
fn directory_number(node: Node) -> u32
    ensures { result ≡ directory_number (Some node) }
{
    match node {
        Node::Directory(number) => number,
        Node::File(..) => 0,
    }
}

/// The number of the directory whose path has these names. `paths` are in ascending order, and
/// `nodes` has what is at each. 0, the number of the root, if no directory is at the path; in the
/// tree of a trace there is one above each path.
fn number_at(
    alloc: Global,
    paths: &[Path],
    nodes: &[Node],
    names: &Names<'_>,
) -> Result<u32, AllocError>
    requires each { length nodes.now ≡ length paths.now }
    requires ascending { IsStrictlySortedBy path_cmp paths.now }
    ensures { IfOk result (λ number. number
        ≡ directory_number (get (nodes_by_path paths.now nodes.now) names.now)) }
{
    let path = Path::of(alloc, names)?;
    match paths.binary_search(&path) {
        Ok(place) => Ok(directory_number(nodes[place])),
        Err(_) => Ok(0),
    }
}

/// Appends the entry of the path at `place`, with what it holds; nothing for the root, which has no
/// entry. If it is out of memory, nothing is appended.
fn push_pair(
    alloc: Global,
    pairs: &mut Vec<(Entry, Node)>,
    paths: &[Path],
    nodes: &[Node],
    place: usize,
) -> Result<(), AllocError>
    requires inside { place < length paths.now }
    requires each { length nodes.now ≡ length paths.now }
    requires ascending { IsStrictlySortedBy path_cmp paths.now }
    ensures { OnOk result (pairs.new.items ≡ pairs.old.items
        ++ held_by_path (nodes_by_path paths.now nodes.now)
        (slice_index_or paths.now place [], node_at nodes.now place)) }
{
    let Some((above, name)) = paths[place].names().split_last() else {
        return Ok(());
    };
    let directory = number_at(alloc, paths, nodes, &above)?;
    let name = copy_name(alloc, name)?;
    pairs.push((Entry { directory, name }, nodes[place]))?;
    Ok(())
}

/// The entry of each record at the start with what it holds, in the order of the records. The root
/// has none, so there is one entry less than there are records.
pub fn start_pairs(
    alloc: Global,
    records: &Start,
    nodes: &[Node],
) -> Result<Vec<(Entry, Node)>, AllocError>
    requires each { length nodes.now ≡ length records.now }
    requires ascending { IsStrictlySortedBy path_cmp (map (λ e. e.0) records.now) }
    ensures pairs { IfOk result (λ pairs. pairs.items
        ≡ flat_map (held_by_path (paths_of_records records.now nodes.now))
        (entries (paths_of_records records.now nodes.now))) }
    ensures few { IfOk result (λ pairs. length pairs.items ≤ length records.now) }
{
    let paths = paths_of(alloc, records)?;
    let mut pairs = Vec::new(alloc);
    for place in 0..paths.len() {
        push_pair(alloc, &mut pairs, &paths, nodes, place)?;
    }
    Ok(pairs)
}

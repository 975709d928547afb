//! Where the records of the start's files and directories are.
ghost use Rattle.std.specs.Prelude.{◌≡◌, ◌<◌, ◌≤◌, ◌^◌, ℕ, length, slice_index_or, IfOk};
ghost use Rattle.cs_trace.specs.Traces.{directory_count, is_directory};
ghost use Rattle.cs_apm.specs.Making.{FindsFiles, with_directory_noted, with_file_noted};
ghost use Rattle.cs_apm.specs.States.{directory_place};

use cs_entries::Node;
use std::alloc::{AllocError, Global};

/// Whether the node is a directory; false for a file or a symbolic link.
fn is_directory(node: Node) -> bool
    ensures { result ≡ is_directory node }
{
    match node {
        Node::Directory(_) => true,
        Node::File(..) => false,
    }
}

/// How many of the nodes are directories. In the nodes of a trace these are the directories at the
/// start, with the numbers from 0.
pub fn count_directories(nodes: &[Node]) -> usize
    ensures { result ≡ directory_count nodes.now }
{
    nodes.iter().filter(|node| is_directory(**node)).count()
}

/// Notes `place` in `starts` as the place of a record of this file or symbolic link, in place of an
/// earlier note. If the node is a directory, or `starts` lacks the file's number, nothing changes.
fn note_start(starts: &mut [u32], node: Node, place: u32)
    ensures { starts.new ≡ with_file_noted starts.old node place }
{
    if let Node::File(_, file) = node {
        if (file as usize) < starts.len() {
            starts[file as usize] = place;
        }
    }
}

/// The places of the records of the first `count` files and symbolic links, by their numbers. The
/// nodes are those of the records, in their order. 0 for a file that has no record (each file at
/// the start of a trace has one). A file with several paths has several records, which differ only
/// in their paths and numbers; then the place is that of one of them.
pub fn starts_of(alloc: Global, nodes: &[Node], count: usize) -> Result<Vec<u32>, AllocError>
    requires { length nodes.now ≤ 2 ^ 32 }
    ensures long { IfOk result (λ starts. length starts.items ≡ count) }
    ensures found { IfOk result (λ starts. FindsFiles nodes.now (length nodes.now) starts.items) }
{
    let mut starts = vec![in alloc; 0; count]?;
    for (place, node) in nodes.iter().enumerate() {
        note_start(&mut starts, *node, place as u32);
    }
    Ok(starts)
}

/// Notes `place` in `places` as the place of the record of this directory, in place of an earlier
/// note. If the node is a file, or `places` lacks the directory's number, nothing changes.
fn note_directory(places: &mut [u32], node: Node, place: u32)
    ensures { places.new ≡ with_directory_noted places.old node place }
{
    if let Node::Directory(number) = node {
        if (number as usize) < places.len() {
            places[number as usize] = place;
        }
    }
}

/// The places of the records of the first `count` directories, by the directories' numbers. The
/// nodes are those of the records, in their order. 0, the place of the root, for a number that no
/// directory has.
pub fn directory_places(alloc: Global, nodes: &[Node], count: usize) -> Result<Vec<u32>, AllocError>
    requires { length nodes.now ≤ 2 ^ 32 }
    ensures long { IfOk result (λ places. length places.items ≡ count) }
    ensures each { IfOk result (λ places. (d : ℕ) → d < count
        → slice_index_or places.items d 0 ≡ directory_place nodes.now d) }
{
    let mut places = vec![in alloc; 0; count]?;
    // From the last record to the first: if two have the number, the place is the first's.
    for k in (0..nodes.len()).rev() {
        note_directory(&mut places, nodes[k], k as u32);
    }
    Ok(places)
}

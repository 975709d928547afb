//! Whether two scenes have the same content: the same trace, and the same recipes. Nothing here
//! allocates. Only `Scene::has_content_of` uses it, by which a registry refuses a state of another
//! scene.
ghost use Rattle.std.specs.Prelude.{◌≡◌, ◌↔◌, IsTrue};

use crate::recipe::Recipe;
use cs_names::Path;
use cs_trace::{Node, Operation, Trace, Version};

/// Whether the recipes are equal, in the same order.
pub fn are_same_recipes(recipes: &[Recipe], others: &[Recipe]) -> bool
    ensures { IsTrue result ↔ (recipes.now ≡ others.now) }
{
    recipes == others
}

/// Whether the operations are equal, in the same order.
fn are_same_operations(operations: &[Operation], others: &[Operation]) -> bool
    ensures { IsTrue result ↔ (operations.now ≡ others.now) }
{
    operations == others
}

/// Whether what is at the paths of the start has equal kinds and equal numbers, in the same order.
fn are_same_nodes(nodes: &[Node], others: &[Node]) -> bool
    ensures { IsTrue result ↔ (nodes.now ≡ others.now) }
{
    nodes == others
}

/// Whether both starts have equally many files and symbolic links, each made at the same path in
/// both, by their numbers.
fn have_same_paths(trace: &Trace, other: &Trace) -> bool
    ensures { IsTrue result ↔ (trace.now.files ≡ other.now.files) }
{
    if trace.file_count() != other.file_count() {
        return false;
    }
    for file in 0..trace.file_count() {
        let (Some(place), Some(beside)) = (trace.file_place(file), other.file_place(file)) else {
            unreachable!()
        };
        if !trace.records().is_same_path(place, other.records(), beside) {
            return false;
        }
    }
    true
}

/// Whether the further paths of files at the start, with the files' numbers, are equal, in the same
/// order.
fn are_same_links(links: &[(Path, u32)], others: &[(Path, u32)]) -> bool
    ensures { IsTrue result ↔ (links.now ≡ others.now) }
{
    links == others
}

/// Whether version, profile and size of a block are equal.
fn are_same_versions(version: Version, other: Version) -> bool
    ensures { IsTrue result ↔ (version ≡ other) }
{
    version == other
}

/// Whether two traces have the same version (with profile and size of a block), the same
/// operations, and the same start. The texts that they were read from may differ.
pub fn is_same_trace(trace: &Trace, other: &Trace) -> bool
    ensures { IsTrue result ↔ (trace.now ≡ other.now) }
{
    if !are_same_versions(trace.version(), other.version()) {
        return false;
    }
    if !are_same_operations(trace.operations(), other.operations()) {
        return false;
    }
    if !trace.records().is_same_start(other.records()) {
        return false;
    }
    if !are_same_nodes(trace.nodes(), other.nodes()) {
        return false;
    }
    have_same_paths(trace, other) && are_same_links(trace.links(), other.links())
}

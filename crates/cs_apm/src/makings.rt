//! Which micro-operations make the files and symbolic links that aren't there at the start.
ghost use Rattle.std.specs.Prelude.{◌≡◌, ◌≤◌, ◌^◌, length, IfOk};
ghost use Rattle.cs_apm.specs.Atlases.{AreMakings};
ghost use Rattle.cs_apm.specs.Making.{makes_file};

use cs_entries::Node;
use cs_micro::MicroOp;
use std::alloc::{AllocError, Global};

/// Whether the micro-operation makes a file or a symbolic link. False for a directory, and for
/// another entry of a file that is there.
fn makes_file(op: &MicroOp) -> bool
    ensures { result ≡ makes_file op.now }
{
    match op {
        MicroOp::CreateDirEntry {
            node: Node::File(..),
            ..
        } => true,
        _ => false,
    }
}

/// The place of the micro-operation that makes each file or symbolic link that isn't there at the
/// start, in the order of their numbers. The first of these numbers is how many files and symbolic
/// links there are at the start.
pub fn makings_of(alloc: Global, ops: &[MicroOp]) -> Result<Vec<u32>, AllocError>
    requires { length ops.now ≤ 2 ^ 32 }
    ensures { IfOk result (λ makings. AreMakings ops.now makings.items) }
{
    let mut makings = Vec::new(alloc);
    for (place, op) in ops.iter().enumerate() {
        if makes_file(op) {
            makings.push(place as u32)?;
        }
    }
    Ok(makings)
}

//! Which files some micro-operation of a trace changes. The bytes of any other file are the same in
//! all states.
ghost use Rattle.std.specs.Prelude.{◌≡◌, IfOk};
ghost use Rattle.cs_apm.specs.Atlases.{AreChanged};
ghost use Rattle.cs_apm.specs.Making.{with_file_marked};

use cs_micro::MicroOp;
use std::alloc::{AllocError, Global};

/// Sets the flag of the file whose size or bytes the micro-operation changes, as `changes_file` of
/// `content` says. If it changes none, or a file whose number has no flag, nothing changes.
fn mark_changed(changed: &mut [bool], op: &MicroOp)
    ensures { changed.new ≡ with_file_marked changed.old op.now }
{
    if let MicroOp::ChangeFileSize { file, .. } | MicroOp::WriteBlock { file, .. } = op {
        if (*file as usize) < changed.len() {
            changed[*file as usize] = true;
        }
    }
}

/// For each of the first `count` files and symbolic links, by its number, whether some
/// micro-operation changes its size or bytes. Making it isn't a change.
pub fn changed_by(alloc: Global, ops: &[MicroOp], count: usize) -> Result<Vec<bool>, AllocError>
    ensures { IfOk result (λ changed. AreChanged ops.now count changed.items) }
{
    let mut changed = vec![in alloc; false; count]?;
    for op in ops {
        mark_changed(&mut changed, op);
    }
    Ok(changed)
}

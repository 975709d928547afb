//! Writes (read(5)).
ghost use Rattle.std.specs.Prelude.{◌≡◌, ◌<◌, ◌^◌, IfOk, IfSome, List, OnOk, OnErr, is_some, true};
ghost use Rattle.cs_permit.specs.Refusals.{AllPass};
ghost use Rattle.cs_permit.specs.Writes.{write_rules, write_start};
ghost use Rattle.cs_permit.specs.declared.call.OpenFile.{OpenFile};
ghost use Rattle.cs_run.specs.Effects.{call_result, write_effect, writes, written_tree};
ghost use Rattle.cs_tree_model.specs.Stores.{CanStamp};

use crate::answer::Answer;
use crate::turn::{Turn, stamp_of};
use cs_permit::{WriteCall, write_start};
use cs_tree_model::{Kind, TreeRead, TreeStore};
use std::alloc::{AllocError, Global};

/// The offset at which the write begins, by cs_permit's `write_start`: the end of an append-only
/// file, else the call's offset. None if the write has no byte, or the file is a directory or gone.
fn start_of_write<T: TreeRead>(tree: &T, call: &WriteCall<'_>) -> Option<u64>
    ensures writes { is_some result ≡ writes (T.tree tree.now) call.now }
    ensures start { IfSome result (λ start. start ≡ write_start (T.tree tree.now) call.now) }
{
    if call.bytes.len() == 0 {
        return None;
    }
    let file = tree.record(call.number)?;
    match file.kind {
        Kind::Directory => None,
        Kind::File { .. } => Some(write_start(call, &file)),
    }
}

/// Writes the call's bytes at its `start_of_write`, or nothing if that is None. The error is out of
/// memory; the tree stays as it was. The caller has checked the rules of a write; no version may
/// overflow.
fn write_bytes<T: TreeStore>(
    alloc: Global,
    call: &WriteCall<'_>,
    tree: &mut T,
    turn: Turn,
) -> Result<(), AllocError>
    requires granted { AllPass (write_rules (T.tree tree.old) call.now) }
    requires vers { CanStamp (T.tree tree.old) call.now.number }
    ensures ok { OnOk result (T.tree tree.new ≡ written_tree (T.tree tree.old) turn call.now) }
    ensures memory { OnErr result (writes (T.tree tree.old) call.now ≡ true) }
    ensures err { OnErr result (T.tree tree.new ≡ T.tree tree.old) }
{
    let Some(start) = start_of_write(tree, call) else {
        return Ok(());
    };
    let stamp = stamp_of(turn, &call.user)?;
    tree.write_at(alloc, call.number, start, call.bytes.as_slice(), stamp)
}

/// Writes all bytes of the call into its file, at the end if it is append-only, else at the call's
/// offset; the answer is their count. Nothing is written into a directory, on which no fid is open
/// for writing. The caller has checked the rules of a write. The error is out of memory; the tree
/// stays as it was. No version may overflow, as `act` requires.
#[tactic(auto, unfolding(crate::specs::Effects::write_effect))]
pub fn act_write<T: TreeStore>(
    alloc: Global,
    call: &WriteCall<'_>,
    tree: &mut T,
    turn: Turn,
) -> Result<Answer, AllocError>
    requires granted { AllPass (write_rules (T.tree tree.old) call.now) }
    requires vers { CanStamp (T.tree tree.old) call.now.number }
    ensures ok { (opens : List OpenFile) → IfOk result (λ answer.
        call_result (T.tree tree.new) opens answer
        ≡ write_effect (T.tree tree.old) opens turn call.now) }
    ensures memory { OnErr result (writes (T.tree tree.old) call.now ≡ true) }
    ensures err { OnErr result (T.tree tree.new ≡ T.tree tree.old) }
{
    let count = call.bytes.len() as u32;
    write_bytes(alloc, call, tree, turn)?;
    Ok(Answer::Written(count))
}

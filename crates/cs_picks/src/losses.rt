//! Which changes of files a crash may lose: those that no sync point covers before the crash. What
//! is left without them is in `left`.
ghost use Rattle.std.specs.Prelude.{◌≡◌, ◌<◌, ◌≤◌, length, IfOk};
ghost use Rattle.cs_apm.specs.Rules as rules;
ghost use Rattle.cs_picks.specs.Losses.{losses_of, lost_at};

use cs_apm::is_covered;
use cs_micro::{MicroOp, SyncPoint};
use cs_same_states::changed_file;
use std::alloc::{AllocError, Global};

/// Whether a sync point after `op`, the operation at the place, and before the operation at `last`
/// covers `op`. False if there are no sync points.
fn is_synced(syncs: &[SyncPoint], place: usize, last: usize, op: &MicroOp) -> bool
    ensures { result ≡ rules.is_synced syncs.now place last op.now }
{
    syncs.iter().any(|sync| place < sync.at && sync.at <= last && is_covered(&sync.covers, op))
}

/// The file that the operation at the place changes, if a crash during the operation at `last` may
/// lose that change. None if it changes no file, or if a sync point after it and before the
/// operation at `last` covers the change. The place must be that of one of these operations.
fn lost_at(ops: &[MicroOp], syncs: &[SyncPoint], last: usize, place: usize) -> Option<u32>
    requires { place < length ops.now }
    ensures { result ≡ lost_at ops.now syncs.now last place }
{
    let op = &ops[place];
    if is_synced(syncs, place, last, op) {
        return None;
    }
    changed_file(op)
}

/// For each place of the prefix of `end` places, the file whose change there a crash may lose: None
/// if no file is changed there, or if a sync point before the prefix's last operation covers the
/// change. A later sync point doesn't count, as the crash may come before it. Empty if `end` is 0.
/// The error is out of memory.
pub fn losses_of(
    alloc: Global,
    ops: &[MicroOp],
    syncs: &[SyncPoint],
    end: usize,
) -> Result<Vec<Option<u32>>, AllocError>
    requires { end ≤ length ops.now }
    ensures { IfOk result (λ losses. losses.items ≡ losses_of ops.now syncs.now end) }
{
    let mut losses = Vec::new(alloc);
    // not used if `end` is 0
    let last = end.saturating_sub(1);
    for place in 0..end {
        losses.push(lost_at(ops, syncs, last, place))?;
    }
    Ok(losses)
}

//! Removes (remove(5)).
ghost use Rattle.std.specs.Prelude.{◌≡◌, IfOk, List, OnOk, OnErr};
ghost use Rattle.cs_permit.specs.Refusals.{AllPass};
ghost use Rattle.cs_permit.specs.Removes.{remove_rules};
ghost use Rattle.cs_run.specs.Effects.{call_result, remove_effect, stamp};
ghost use Rattle.cs_run.specs.Opens.{opens_without_if};
ghost use Rattle.cs_tree_model.specs.Stores.{CanStampParent, tree_without_file};
ghost use Rattle.cs_users.specs.Rows.{Row};

use crate::answer::Answer;
use crate::opens::Opens;
use crate::turn::{Turn, stamp_of};
use cs_permit::{RemoveCall, laws};
use cs_tree_model::TreeStore;
use std::alloc::{AllocError, Global};

/// Removes the file, which may be an empty directory, from the tree. The error is out of memory;
/// the tree stays as it was. The caller has checked the rules of a remove; no version may overflow.
fn remove_file<T: TreeStore>(
    alloc: Global,
    call: &RemoveCall,
    tree: &mut T,
    turn: Turn,
) -> Result<(), AllocError>
    requires granted { (users : List Row)
        × AllPass (remove_rules (T.tree tree.old) users call.now) }
    requires vers { CanStampParent (T.tree tree.old) call.now.number }
    ensures ok { OnOk result
        (T.tree tree.new ≡ tree_without_file call.now.number (stamp turn call.now.user)
        (T.tree tree.old)) }
    ensures err { OnErr result (T.tree tree.new ≡ T.tree tree.old) }
{
    let stamp = stamp_of(turn, &call.user)?;
    // the rules refuse a directory with a first entry, so the file has no entry
    laws::first_entry_decides(tree, call.number);
    tree.remove(alloc, call.number, stamp)
}

/// Removes a file or an empty directory, and releases the fid's open, if it has one. The caller has
/// checked the rules of a remove. The error is out of memory: the open is released then, but the
/// tree is as it was. No version may overflow, as `act` requires.
#[tactic(auto, unfolding(crate::specs::Effects::remove_effect))]
pub fn act_remove<T: TreeStore>(
    alloc: Global,
    call: &RemoveCall,
    tree: &mut T,
    opens: &mut Opens,
    turn: Turn,
) -> Result<Answer, AllocError>
    requires granted { (users : List Row)
        × AllPass (remove_rules (T.tree tree.old) users call.now) }
    requires vers { CanStampParent (T.tree tree.old) call.now.number }
    ensures ok { IfOk result (λ answer. call_result (T.tree tree.new) opens.new.items answer
        ≡ remove_effect (T.tree tree.old) opens.old.items turn call.now) }
    ensures err { OnErr result ((T.tree tree.new ≡ T.tree tree.old)
        × (opens.new.items ≡ opens_without_if call.now.open_number turn.pass opens.old.items)) }
{
    opens.release_if(call.open_number, turn.pass);
    remove_file(alloc, call, tree, turn)?;
    Ok(Answer::Removed)
}

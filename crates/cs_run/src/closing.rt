//! Closes (clunk(5)).
ghost use Rattle.std.specs.Prelude.{◌≡◌, IfOk, OnOk, OnErr, Some, is_some, true, ℕ};
ghost use Rattle.cs_run.specs.Effects.{close_effect, closed_tree, call_result, removes_file};
ghost use Rattle.cs_run.specs.Opens.{open_numbered, opens_without};
ghost use Rattle.cs_tree_model.specs.Stores.{CanStamp};
ghost use Rattle.cs_tree_model.specs.Tree.{IsTree, content_numbered};

use crate::answer::Answer;
use crate::opens::Opens;
use crate::turn::{Turn, stamp_of};
use cs_permit::mode::removes_on_close;
use cs_permit::rules::is_directory;
use cs_permit::{CloseCall, OpenFile};
use cs_tree_model::{TreeRead, TreeStore};
use std::alloc::{AllocError, Global};

/// Whether the number is that of a file that isn't a directory; the file may be a symbolic link.
/// False if no file has the number. The clause `is_tree` is what `removes_file` ensures.
fn is_of_regular_file<T: TreeRead>(tree: &T, number: u64) -> bool
    ensures value { result ≡ is_some (content_numbered (T.tree tree.now) number) }
    ensures is_tree { IsTree (T.tree tree.now) }
{
    match tree.record(number) {
        Some(file) => !is_directory(&file),
        None => false,
    }
}

/// Whether the close of this open removes its file: the open's mode says so, and the file still
/// exists and isn't a directory. The clause `is_tree` is here because `remove` requires that the
/// file isn't the root and has no entries; so the tree is asked before the mode.
fn removes_file<T: TreeRead>(tree: &T, opened: OpenFile) -> bool
    ensures value { result ≡ removes_file (T.tree tree.now) (Some opened) }
    ensures is_tree { IsTree (T.tree tree.now) }
{
    is_of_regular_file(tree, opened.file) && removes_on_close(opened.mode)
}

/// Removes the file of `closed`, the open that the close released, if the close removes it
/// (`removes_file`). With None, nothing is removed. The error is out of memory; the tree stays as
/// it was. No version may overflow, as `act` requires.
fn remove_closed<T: TreeStore>(
    alloc: Global,
    call: &CloseCall,
    tree: &mut T,
    closed: Option<OpenFile>,
    turn: Turn,
) -> Result<(), AllocError>
    requires { (n : ℕ) → CanStamp (T.tree tree.old) n }
    ensures ok { OnOk result (T.tree tree.new ≡ closed_tree
        (T.tree tree.old) turn call.now.user closed) }
    ensures memory { OnErr result (removes_file (T.tree tree.old) closed ≡ true) }
    ensures err { OnErr result (T.tree tree.new ≡ T.tree tree.old) }
{
    let Some(opened) = closed else {
        return Ok(());
    };
    if !removes_file(tree, opened) {
        return Ok(());
    }
    let stamp = stamp_of(turn, &call.user)?;
    tree.remove(alloc, opened.file, stamp)
}

/// Ends an open. If the open's mode asks for it (ORCLOSE) and its file is still there, the file is
/// removed, too (`removes_file`). The open is the one with the call's number and the turn's pass.
/// If there is no such open, nothing changes, and the answer is Closed, too. If memory runs out,
/// the open is released, but the tree is as it was. No version may overflow, as `act` requires.
#[tactic(auto, unfolding(crate::specs::Effects::close_effect))]
pub fn act_close<T: TreeStore>(
    alloc: Global,
    call: &CloseCall,
    tree: &mut T,
    opens: &mut Opens,
    turn: Turn,
) -> Result<Answer, AllocError>
    requires { (n : ℕ) → CanStamp (T.tree tree.old) n }
    ensures ok { IfOk result (λ answer. call_result (T.tree tree.new) opens.new.items answer
        ≡ close_effect (T.tree tree.old) opens.old.items turn call.now) }
    ensures memory { OnErr result
        (removes_file (T.tree tree.old)
        (open_numbered call.now.open_number turn.pass opens.old.items)
        ≡ true) }
    ensures err { OnErr result ((T.tree tree.new ≡ T.tree tree.old)
        × (opens.new.items ≡ opens_without call.now.open_number turn.pass opens.old.items)) }
{
    let closed = opens.release(call.open_number, turn.pass);
    remove_closed(alloc, call, tree, closed, turn)?;
    Ok(Answer::Closed)
}

//! Creates (open(5)).
ghost use Rattle.std.specs.Prelude.{◌≡◌, ◌<◌, ◌^◌, IfOk, List, OnOk, OnErr};
ghost use Rattle.cs_permit.specs.Creates.{create_rules};
ghost use Rattle.cs_permit.specs.Refusals.{AllPass};
ghost use Rattle.cs_run.specs.Effects.{all_but, create_effect, created_mode, created_tree};
ghost use Rattle.cs_run.specs.Effects.{call_result, mode_at, requested_new};
ghost use Rattle.cs_run.specs.Opens.{AreBelow};
ghost use Rattle.cs_tree_model.specs.Stores.{CanStamp};
ghost use Rattle.cs_users.specs.Rows.{Row};

use crate::answer::Answer;
use crate::opens::Opens;
use crate::turn::{Turn, stamp_of};
use cs_permit::{CreateCall, OpenFile, qid_at};
use cs_tree_model::{New, TreeRead, TreeStore, is_directory_mode};
use std::alloc::{AllocError, Global};

/// The mode of the file of that number; 0 if there is no such file.
fn mode_at<T: TreeRead>(tree: &T, number: u64) -> u32
    ensures { result ≡ mode_at (T.tree tree.now) number }
{
    match tree.record(number) {
        Some(file) => file.mode,
        // not for a granted create: its directory is there
        None => 0,
    }
}

/// The mode of a new file or directory: `perm` as the create asks for it, masked by `directory`,
/// the mode of its directory (open(5)). The x bits of a file aren't masked.
fn created_mode(perm: u32, directory: u32) -> u32
    ensures { result ≡ created_mode perm directory }
{
    if is_directory_mode(perm) {
        perm & (!0o777 | (directory & 0o777))
    } else {
        perm & (!0o666 | (directory & 0o666))
    }
}

/// What the create asks the tree's `add` to make: a file or directory with the mode of
/// `created_mode`.
fn requested_new<T: TreeRead>(tree: &T, call: &CreateCall) -> New
    ensures { result ≡ requested_new (T.tree tree.now) call.now }
{
    New {
        mode: created_mode(call.perm, mode_at(tree, call.number)),
    }
}

/// Adds the new file or directory to its directory, and returns the new number. The error is out of
/// memory; the tree stays as it was. The caller has checked the rules of a create; no version and
/// no number may overflow.
fn add_created<T: TreeStore>(
    alloc: Global,
    call: &CreateCall,
    tree: &mut T,
    turn: Turn,
) -> Result<u64, AllocError>
    requires granted { (users : List Row)
        × AllPass (create_rules (T.tree tree.old) users call.now) }
    requires vers { CanStamp (T.tree tree.old) call.now.number }
    requires next { (T.tree tree.old).next < 2 ^ 64 }
    ensures ok { OnOk result (T.tree tree.new ≡ created_tree (T.tree tree.old) turn call.now) }
    ensures number { IfOk result (λ n. n ≡ (T.tree tree.old).next) }
    ensures err { OnErr result (T.tree tree.new ≡ T.tree tree.old) }
{
    let name = call.name.try_clone()?;
    let stamp = stamp_of(turn, &call.user)?;
    let new = requested_new(tree, call);
    tree.add(alloc, call.number, name, new, stamp)
}

/// Makes a file or directory in a directory, and opens it; the open has the turn's place as its
/// number. The caller has checked the rules of a create. The error is out of memory; tree and opens
/// stay as they were. No version may overflow, as `act` requires.
#[tactic(auto, unfolding(crate::specs::Effects::create_effect))]
pub fn act_create<T: TreeStore>(
    alloc: Global,
    call: &CreateCall,
    tree: &mut T,
    opens: &mut Opens,
    turn: Turn,
) -> Result<Answer, AllocError>
    requires granted { (users : List Row)
        × AllPass (create_rules (T.tree tree.old) users call.now) }
    requires vers { CanStamp (T.tree tree.old) call.now.number }
    requires next { (T.tree tree.old).next < 2 ^ 64 }
    requires above { AreBelow turn.place opens.old.items }
    ensures ok { IfOk result (λ answer. call_result (T.tree tree.new) opens.new.items answer
        ≡ create_effect (T.tree tree.old) opens.old.items turn call.now) }
    ensures err { OnErr result ((T.tree tree.new ≡ T.tree tree.old)
        × (opens.new.items ≡ opens.old.items)) }
{
    opens.reserve()?;
    let number = add_created(alloc, call, tree, turn)?;
    let open = OpenFile {
        number: turn.place,
        file: number,
        mode: call.mode,
        pass: turn.pass,
    };
    opens.add(open);
    Ok(Answer::Opened {
        qid: qid_at(tree, number),
        open_number: turn.place,
        number,
    })
}

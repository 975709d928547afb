//! Opens (open(5)).
ghost use Rattle.std.specs.Prelude.{◌≡◌, ◌<◌, ◌^◌, IfOk, List, OnOk, OnErr, true};
ghost use Rattle.cs_permit.specs.Opens.{open_rules};
ghost use Rattle.cs_permit.specs.Refusals.{AllPass};
ghost use Rattle.cs_permit.specs.declared.call.OpenFile.{OpenFile};
ghost use Rattle.cs_run.specs.Effects.{change_to_no_bytes, truncates_file, call_result};
ghost use Rattle.cs_run.specs.Effects.{open_effect, opened_tree};
ghost use Rattle.cs_run.specs.Opens.{AreBelow};
ghost use Rattle.cs_tree_model.specs.Stores.{CanStamp};
ghost use Rattle.cs_users.specs.Rows.{Row};

use crate::answer::Answer;
use crate::opens::Opens;
use crate::turn::{Turn, stamp_of};
use cs_permit::mode::truncates;
use cs_permit::rules::is_append_only;
use cs_permit::{OpenCall, OpenFile, qid_at};
use cs_tree_model::{Change, TreeRead, TreeStore};
use std::alloc::{AllocError, Global};

/// Whether the open empties its file: its mode says so, and the file isn't append-only.
fn truncates_file<T: TreeRead>(tree: &T, call: &OpenCall) -> bool
    ensures { result ≡ truncates_file (T.tree tree.now) call.now }
{
    if !truncates(call.mode) {
        return false;
    }
    match tree.record(call.number) {
        Some(file) => !is_append_only(&file),
        // not for a granted open: its file is there
        None => true,
    }
}

/// The change that makes a file's length 0 and changes no other field.
fn change_to_no_bytes() -> Change
    ensures { result ≡ change_to_no_bytes }
{
    Change {
        name: None,
        length: Some(0),
        mode: None,
        group: None,
        mtime: None,
    }
}

/// Empties the file that is opened, if the open asks for that (`truncates_file`). The error is out
/// of memory; the tree stays as it was. The caller has checked the rules of an open; no version may
/// overflow.
fn truncate_opened<T: TreeStore>(
    alloc: Global,
    call: &OpenCall,
    tree: &mut T,
    turn: Turn,
) -> Result<(), AllocError>
    requires granted { (opens : List OpenFile) × (users : List Row)
        × AllPass (open_rules (T.tree tree.old) opens users call.now) }
    requires vers { CanStamp (T.tree tree.old) call.now.number }
    ensures ok { OnOk result (T.tree tree.new ≡ opened_tree (T.tree tree.old) turn call.now) }
    ensures err { OnErr result (T.tree tree.new ≡ T.tree tree.old) }
{
    if !truncates_file(tree, call) {
        return Ok(());
    }
    let stamp = stamp_of(turn, &call.user)?;
    tree.change(alloc, call.number, &change_to_no_bytes(), stamp)
}

/// Opens a file: empties it if the open asks for that (`truncates_file`), and adds the open, with
/// the turn's place as its number. The caller has checked the rules of an open. The error is out of
/// memory; tree and opens stay as they were. No version may overflow, as `act` requires.
#[tactic(auto, unfolding(crate::specs::Effects::open_effect))]
pub fn act_open<T: TreeStore>(
    alloc: Global,
    call: &OpenCall,
    tree: &mut T,
    opens: &mut Opens,
    turn: Turn,
) -> Result<Answer, AllocError>
    requires granted { (users : List Row)
        × AllPass (open_rules (T.tree tree.old) opens.old.items users call.now) }
    requires vers { CanStamp (T.tree tree.old) call.now.number }
    requires above { AreBelow turn.place opens.old.items }
    ensures ok { IfOk result (λ answer. call_result (T.tree tree.new) opens.new.items answer
        ≡ open_effect (T.tree tree.old) opens.old.items turn call.now) }
    ensures err { OnErr result ((T.tree tree.new ≡ T.tree tree.old)
        × (opens.new.items ≡ opens.old.items)) }
{
    opens.reserve()?;
    truncate_opened(alloc, call, tree, turn)?;
    let open = OpenFile {
        number: turn.place,
        file: call.number,
        mode: call.mode,
        pass: turn.pass,
    };
    opens.add(open);
    Ok(Answer::Opened {
        qid: qid_at(tree, call.number),
        open_number: turn.place,
        number: call.number,
    })
}

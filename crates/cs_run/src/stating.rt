//! Stats (stat(5)).
ghost use Rattle.std.specs.Prelude.{◌≡◌, IfOk};
ghost use Rattle.cs_run.specs.Effects.{stat_answer};

use crate::answer::{Answer, FileStat};
use cs_names::RuleId;
use cs_permit::{StatCall, stat_ref};
use cs_tree_model::TreeRead;
use std::alloc::{AllocError, Global};

/// The answer to a stat: the file's fields, or a denial by H2 if the file is gone. The error is out
/// of memory.
pub(crate) fn act_stat<T: TreeRead>(
    alloc: Global,
    call: &StatCall,
    tree: &T,
) -> Result<Answer, AllocError>
    ensures { IfOk result (λ answer. answer ≡ stat_answer (T.tree tree.now) call.now) }
{
    let Some(stat) = stat_ref(tree, call.number) else {
        // not for a granted stat: cs_permit's `first_of_stat` has denied it by H2
        return Ok(Answer::Denied(RuleId::H2));
    };
    Ok(Answer::Stat(FileStat::new(stat.to_stat(alloc)?)))
}

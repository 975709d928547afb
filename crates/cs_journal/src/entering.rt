//! Adding a call's entry and receipt, for which memory was allocated before.
ghost use Rattle.std.specs.Prelude.{◌≡◌, ◌<◌, ◌+◌, [], ◌∷◌, ◌++◌, length, vec_capacity, vec_len};
ghost use Rattle.cs_names.specs.declared.limits.TheConstants.{RUN_ATTACHES};
ghost use Rattle.cs_journal.specs.Kept.{LiesIn, call_of};
ghost use Rattle.cs_journal.specs.Summaries.{without_bytes};

use crate::entry::Entry;
use crate::journal::Journal;
use crate::kept_call::KeptCall;
use crate::receipt::Receipt;
use cs_run::{Outcome, Turn};

/// Adds the entry and the receipt of a call that had that turn and outcome, into the room that both
/// lists have. `entry` and `receipt` are what these two keep of the call.
#[inline]
pub(crate) fn enter(
    journal: &mut Journal,
    receipts: &mut Vec<Receipt>,
    turn: Turn,
    entry: KeptCall,
    receipt: KeptCall,
    outcome: Outcome,
)
    requires pass { turn.pass < RUN_ATTACHES }
    requires lies { LiesIn journal.old.blocks entry }
    requires entry_room { length journal.old.items < journal.old.capacity }
    requires receipt_room { vec_len receipts.old < vec_capacity receipts.old }
    ensures journal { journal.new.items ≡ journal.old.items
        ++ record {
          pass = turn.pass;
          moment = turn.moment;
          call = call_of journal.old.blocks entry;
          outcome = outcome;
        } ∷ [] }
    ensures journal_len { length journal.new.items ≡ length journal.old.items + 1 }
    ensures journal_capacity { journal.new.capacity ≡ journal.old.capacity }
    ensures receipts { receipts.new.items ≡ receipts.old.items
        ++ record {
          place = turn.place;
          call = without_bytes (call_of [] receipt);
          outcome = outcome;
        } ∷ [] }
    ensures receipts_len { vec_len receipts.new ≡ vec_len receipts.old + 1 }
    ensures receipts_capacity { vec_capacity receipts.new ≡ vec_capacity receipts.old }
{
    journal.push(Entry {
        // below RUN_ATTACHES, so 8 bits suffice
        pass: turn.pass as u8,
        outcome,
        moment: turn.moment,
        kept: entry,
    });
    receipts.push_reserved(Receipt {
        kept: receipt,
        place: turn.place,
        outcome,
    });
}

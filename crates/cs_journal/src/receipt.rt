//! The receipts of a pass.
ghost use Rattle.std.specs.Prelude.{◌≡◌, ◌↔◌, IsTrue};

use crate::entry::EntryRef;
use crate::kept_call::KeptCall;
use crate::summary::{are_same, summary_of};
use cs_names::RuleId;
use cs_permit::Call;
use cs_run::Outcome;
use std::marker::Model;

/// What a pass keeps of an entry. Contracts see the entry's place, its call without the bytes that
/// it wrote, and how it ended.
#[derive(Drop)]
pub struct Receipt {
    /// The call; of a write the bytes aren't looked at.
    pub(crate) kept: KeptCall,
    /// The entry's place in the journal.
    pub(crate) place: u32,
    /// How the call ended.
    pub(crate) outcome: Outcome,
}

impl Model for Receipt {
    ghost use Rattle.std.specs.Prelude.{[]};
    ghost use Rattle.cs_journal.specs.Kept.{call_of};
    ghost use Rattle.cs_journal.specs.Runs.{ReceiptOf};
    ghost use Rattle.cs_journal.specs.Summaries.{without_bytes};

    ghost Value = { ReceiptOf };

    ghost view = { λ r. record {
      place = r.place;
      call = without_bytes (call_of [] r.kept);
      outcome = r.outcome;
    } };
}

/// Whether both are the same rule.
fn is_same_rule(rule: RuleId, other: RuleId) -> bool
    ensures { IsTrue result ↔ (rule ≡ other) }
{
    rule == other
}

/// Whether both outcomes are the same; denials are if they are by the same rule.
fn is_same_outcome(outcome: Outcome, other: Outcome) -> bool
    ensures { IsTrue result ↔ (outcome ≡ other) }
{
    match (outcome, other) {
        (Outcome::Granted, Outcome::Granted) | (Outcome::Short, Outcome::Short) => true,
        (Outcome::Denied(rule), Outcome::Denied(other)) => is_same_rule(rule, other),
        // outcomes of two kinds
        _ => false,
    }
}

impl Receipt {
    ghost use Rattle.cs_journal.specs.Summaries.{without_bytes};
    ghost use Rattle.cs_journal.specs.Runs.{receipt_of};

    /// The place of its entry in the journal.
    pub fn place(&self) -> u32
        ensures { result ≡ self.now.place }
    {
        self.place
    }

    /// How its call ended.
    pub fn outcome(&self) -> Outcome
        ensures { result ≡ self.now.outcome }
    {
        self.outcome
    }

    /// Whether its call is this one: of the same kind, with the same fields. The bytes of two
    /// writes aren't compared. For tests: no command calls it.
    pub fn is_for(&self, call: &Call<'_>) -> bool
        ensures { IsTrue result ↔ (self.now.call ≡ without_bytes call.now) }
    {
        are_same(self.kept.summary(), summary_of(call))
    }

    /// Whether this is the receipt of that entry, whose place is `place`: it has the same place,
    /// call and outcome. The bytes of two writes aren't compared.
    pub(crate) fn is_of(&self, place: u32, entry: &EntryRef) -> bool
        ensures { IsTrue result ↔ (self.now ≡ receipt_of place entry.now) }
    {
        if self.place != place {
            return false;
        }
        if !is_same_outcome(self.outcome, entry.outcome()) {
            return false;
        }
        are_same(self.kept.summary(), entry.summary())
    }
}

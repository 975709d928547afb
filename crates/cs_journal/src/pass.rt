//! The passes of a run.
ghost use Rattle.std.specs.Prelude.{◌≡◌};
ghost use Rattle.cs_journal.specs.Runs.{IsAscending};

use crate::receipt::Receipt;
use crate::user_text::UserText;
use std::marker::Model;

/// What one attach to a run gives its client: a number, a receipt of each entry that came under it,
/// and reserved places for the receipts of its opens' closes. Each step of the run takes it, and
/// adds to it. Contracts see these three.
#[derive(Drop)]
pub struct Pass {
    /// Among the passes of its run, from 0.
    pub(crate) number: u32,
    /// In the order of the journal.
    pub(crate) receipts: Vec<Receipt>,
    /// How many opens it has: for the close of each, the receipts have room.
    pub(crate) reserved: usize,
    /// Texts for the users of the closes to come, two for each: one for its entry, and one for its
    /// receipt.
    pub(crate) blanks: Vec<Box<UserText>>,
}

impl Model for Pass {
    ghost use Rattle.std.specs.Prelude.{◌+◌, ◌≤◌, vec_capacity, vec_len};
    ghost use Rattle.cs_journal.specs.Runs.{IsAscending, PassOf};

    ghost Value = { PassOf };

    ghost view = { λ p. record {
      number = p.number;
      receipts = p.receipts.items;
      reserved = p.reserved;
    } };

    ghost invariant = { λ p. (vec_len p.receipts + p.reserved ≤ vec_capacity p.receipts)
        × (p.reserved + p.reserved ≤ vec_len p.blanks) × IsAscending p.receipts.items };
}

impl Pass {
    /// The pass's number among those of its run, from 0.
    pub fn number(&self) -> u32
        ensures { result ≡ self.now.number }
    {
        self.number
    }

    /// The receipts of the pass's entries, in the order of the journal. Empty if no entry came
    /// under it.
    pub fn receipts(&self) -> &[Receipt]
        ensures value { result.now ≡ self.now.receipts }
        ensures ascending { IsAscending self.now.receipts }
    {
        self.receipts.as_slice()
    }

    /// How many places are reserved for receipts of closes to come. For tests: no command calls it.
    pub fn reserved(&self) -> usize
        ensures { result ≡ self.now.reserved }
    {
        self.reserved
    }
}

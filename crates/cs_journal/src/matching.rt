//! Whether a pass is one that a run gave, with all receipts that it should have by now.
ghost use Rattle.std.specs.Prelude.{◌≡◌, ◌↔◌, IsTrue};
ghost use Rattle.cs_journal.specs.Fitting.{Tallies, receipt_at};
ghost use Rattle.cs_journal.specs.Runs.{Fits, last_of};

use crate::counts::PassCounts;
use crate::journal::Journal;
use crate::pass::Pass;
use crate::receipt::Receipt;
use crate::run::Run;
use cs_tree_model::TreeRead;

/// Whether the last receipt is that of the entry at the place `last`. If `last` is None, or the
/// journal has no such entry: whether there are no receipts.
fn is_last(receipts: &[Receipt], journal: &Journal, last: Option<u32>) -> bool
    ensures { IsTrue result ↔ (last_of receipts.now ≡ receipt_at journal.now.items last) }
{
    let Some(place) = last else {
        return receipts.is_empty();
    };
    // never so for a run's counts: they have places of its own entries
    if place as usize >= journal.len() {
        return receipts.is_empty();
    }
    let entry = journal.entry(place as usize);
    match receipts.last() {
        Some(receipt) => receipt.is_of(place, &entry),
        None => false,
    }
}

/// Whether what a run counts of a pass is true of this pass: it has as many receipts as entries are
/// counted and as many reserved places as opens, and its last receipt is that of the last entry
/// counted.
fn are_counts_of(counts: &PassCounts, journal: &Journal, pass: &Pass) -> bool
    ensures { IsTrue result ↔ Tallies counts.now journal.now.items pass.now }
{
    if counts.entries != pass.receipts.len() {
        return false;
    }
    if counts.opens != pass.reserved {
        return false;
    }
    is_last(&pass.receipts, journal, counts.last)
}

impl<L: TreeRead + Drop> Run<L> {
    /// Whether calls can be made under the pass: the run gave it, counts as many entries and opens
    /// of it as it has receipts and reserved places, and its last receipt is of its last entry.
    pub fn fits(&self, pass: &Pass) -> bool
        ensures { IsTrue result ↔ Fits self.now pass.now }
    {
        match self.passes.get(pass.number as usize) {
            Some(counts) => are_counts_of(counts, &self.journal, pass),
            None => false,
        }
    }
}

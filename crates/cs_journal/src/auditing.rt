//! Whether the receipts of some passes are the entries of a run's journal.
ghost use Rattle.std.specs.Prelude.{◌≡◌, ◌↔◌, ◌≤◌, IfSome, IsTrue, length, option_map, slice_get};
ghost use Rattle.std.specs.List.{find};
ghost use Rattle.cs_names.specs.declared.limits.TheConstants.{JOURNAL_ENTRIES, RUN_ATTACHES};
ghost use Rattle.cs_journal.specs.Audit.{AreRests, Audits, FindSame, IsAudit, TellsOf};
ghost use Rattle.cs_journal.specs.Audit.{is_at, receipts_count, receipts_of_pass};
ghost use Rattle.cs_journal.specs.Runs.{IsAscending};

use crate::entry::EntryRef;
use crate::journal::Journal;
use crate::pass::Pass;
use crate::receipt::Receipt;
use crate::run::Run;
use cs_names::limits::RUN_ATTACHES;
use cs_tree_model::TreeRead;

/// How many passes a run gives at most.
const PASSES: usize = RUN_ATTACHES as usize;

/// Why the receipts of some passes are not the entries of a run. An entry's own receipt is one with
/// its place, its call without written bytes, and its outcome, in the first pass of its number.
#[derive(Clone, Copy, Debug, PartialEq, Eq)]
pub enum AuditFault {
    /// There are not as many receipts as entries.
    Count,
    /// The entry at this place is the first without its own receipt: no receipt there has its
    /// place.
    Missing(u32),
    /// The entry at this place is the first without its own receipt: the receipt there with its
    /// place has another call or outcome.
    Changed(u32),
}

/// Whether the passes have `entries` receipts in all.
fn has_count(passes: &[Pass], entries: usize) -> bool
    ensures { IsTrue result ↔ (receipts_count passes.now ≡ entries) }
{
    let mut total = 0usize;
    for pass in passes {
        let more = pass.receipts().len();
        if more > entries - total {
            return false;
        }
        total += more;
    }
    total == entries
}

/// The receipts of the first pass of that number; empty if no pass has it.
fn receipts_of(passes: &[Pass], number: u32) -> &[Receipt]
    ensures value { result.now ≡ receipts_of_pass passes.now number }
    ensures ascending { IsAscending result.now }
{
    for pass in passes {
        if pass.number() == number {
            return pass.receipts();
        }
    }
    &[]
}

/// For each number that a run gives to a pass, the receipts of the first pass of that number; empty
/// if no pass has it.
fn receipts_by_number(passes: &[Pass]) -> [&[Receipt]; PASSES]
    ensures rests { AreRests (λ rest. rest.now) passes.now result 0 }
    ensures many { length result ≡ RUN_ATTACHES }
{
    let mut all: [&[Receipt]; PASSES] = [&[]; PASSES];
    for number in 0..PASSES {
        all[number] = receipts_of(passes, number as u32);
    }
    all
}

/// The receipts at this place or a later one: the end of the list, which is in ascending order of
/// places. Empty if all are earlier.
fn receipts_from(receipts: &[Receipt], place: u32) -> &[Receipt]
    requires { IsAscending receipts.now }
    ensures same { FindSame place result.now receipts.now }
    ensures ascending { IsAscending result.now }
    ensures from { IfSome (slice_get result.now 0) (λ r. place ≤ r.place) }
{
    for (skipped, receipt) in receipts.iter().enumerate() {
        if receipt.place() >= place {
            return &receipts[skipped..];
        }
    }
    &[]
}

/// The first of the receipts, if it is at `place`; None if it is at a later place, or if there are
/// no receipts. The caller has left out those at earlier places.
fn first_if_at(receipts: &[Receipt], place: u32) -> Option<&Receipt>
    requires ascending { IsAscending receipts.now }
    requires from { IfSome (slice_get receipts.now 0) (λ r. place ≤ r.place) }
    ensures { option_map (λ r. r.now) result ≡ find (is_at place) receipts.now }
{
    let receipt = receipts.first()?;
    if receipt.place() == place {
        Some(receipt)
    } else {
        None
    }
}

/// Ok if `receipt`, the one found for the entry's place, is the entry's own; Missing if none was
/// found, else Changed.
fn audit_entry(receipt: Option<&Receipt>, place: u32, entry: &EntryRef) -> Result<(), AuditFault>
    ensures { TellsOf (option_map (λ r. r.now) receipt.entry) place entry.now result }
{
    let Some(receipt) = receipt else {
        return Err(AuditFault::Missing(place));
    };
    if receipt.is_of(place, entry) {
        Ok(())
    } else {
        Err(AuditFault::Changed(place))
    }
}

/// Ok if each entry has its own receipt, else the fault of the first entry that doesn't. It goes
/// through each list of receipts once. Receipts without an entry are no fault here: `has_count`
/// finds them. A journal has at most JOURNAL_ENTRIES entries.
fn audit_entries(journal: &Journal, passes: &[Pass]) -> Result<(), AuditFault>
    requires { length journal.now.items ≤ JOURNAL_ENTRIES }
    ensures { IsAudit passes.now journal.now.items result }
{
    let mut rests = receipts_by_number(passes);
    for place in 0..journal.len() {
        let entry = journal.entry(place);
        let number = entry.pass();
        let rest = receipts_from(rests[number], place as u32);
        rests[number] = rest;
        match audit_entry(first_if_at(rest, place as u32), place as u32, &entry) {
            Ok(()) => {}
            Err(fault) => return Err(fault),
        }
    }
    Ok(())
}

/// Ok if the receipts are the journal's entries. Count if there are not as many, else the fault
/// that `audit_entries` finds. A journal has at most JOURNAL_ENTRIES entries.
fn audit_journal(journal: &Journal, passes: &[Pass]) -> Result<(), AuditFault>
    requires { length journal.now.items ≤ JOURNAL_ENTRIES }
    ensures { Audits passes.now journal.now.items result }
{
    if !has_count(passes, journal.len()) {
        return Err(AuditFault::Count);
    }
    audit_entries(journal, passes)
}

impl<L: TreeRead + Drop> Run<L> {
    /// Checks that the receipts of these passes, the run's own or any others, are the entries of
    /// its journal: Count if there are not as many; then Missing or Changed at the first entry that
    /// has no receipt, or another, in the first pass of its number. It allocates nothing, and takes
    /// time linear in the entries.
    pub fn audit(&self, passes: &[Pass]) -> Result<(), AuditFault>
        ensures { Audits passes.now self.now.journal result }
    {
        audit_journal(&self.journal, passes)
    }
}

//! Laws on what an audit means. The functions do nothing: their contracts are the laws.
ghost use Rattle.std.specs.Prelude.{List};
ghost use Rattle.cs_journal.specs.Audit.{AreEntries, HaveDistinctNumbers, IsAudited};
ghost use Rattle.cs_journal.specs.Journals.{EntryOf};
ghost use Rattle.cs_journal.specs.Runs.{PassOf};

/// If an audit is ok, the receipts of the passes are the entries of the journal, each once.
pub fn audited_are_entries()
    ensures { (ps : List PassOf) (es : List EntryOf) → IsAudited ps es → AreEntries ps es }
{}

/// If the receipts of the passes are the entries of the journal, each once, and no two passes have
/// the same number, the audit is ok.
pub fn entries_are_audited()
    ensures { (ps : List PassOf) (es : List EntryOf) → HaveDistinctNumbers ps → AreEntries ps es
        → IsAudited ps es }
{}

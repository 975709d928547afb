//! The lines that are printed of the runs at the end, each with the audit of its journal.
ghost use Rattle.std.specs.Prelude.{◌≡◌, ◌++◌, IfOk, OnOk, Some, string_bytes};
ghost use Rattle.std.specs.Map.{keys_of};
ghost use Rattle.cs_serve.specs.Summary.{AreReported, IsReport, IsSummary, finding_text, run_line};
ghost use Rattle.cs_serve.specs.Summary.{verdict_text};

use cs_connection::GivenPasses;
use cs_inputs::ProgramFault;
use cs_journal::AuditFault;
use cs_registry::RunKey;
use cs_shared_runs::{AuditBy, Registry, ServerBrand, SharedRun};
use std::alloc::{AllocError, Global};
use std::fmt;
use std::sync::Wait;

/// An audit's result, to be printed in words.
#[derive(Clone, Copy)]
struct Verdict(Result<(), AuditFault>);

impl fmt::Display for Verdict {
    ghost output = { λ verdict. Some (verdict_text verdict.0) };

    /// Writes `ok`, `count`, or `missing` or `changed` with the place of the first such entry.
    fn fmt<W: fmt::Write>(&self, f: &mut fmt::Formatter<W>) -> fmt::Result {
        match self.0 {
            Ok(()) => f.write_str("ok"),
            Err(AuditFault::Count) => f.write_str("count"),
            Err(AuditFault::Missing(place)) => write!(f, "missing {place}"),
            Err(AuditFault::Changed(place)) => write!(f, "changed {place}"),
        }
    }
}

/// How many entries a run's journal has, and the result of its audit, to be printed. None if the
/// run under the lock is of another number, which can't happen.
#[derive(Clone, Copy)]
struct Finding(Option<(usize, Result<(), AuditFault>)>);

impl fmt::Display for Finding {
    ghost output = { λ finding. Some (finding_text finding.0) };

    /// Writes `entries 12 audit ok` or the like; `foreign` if there is neither.
    fn fmt<W: fmt::Write>(&self, f: &mut fmt::Formatter<W>) -> fmt::Result {
        match self.0 {
            Some((entries, audit)) => {
                let verdict = Verdict(audit);
                write!(f, "entries {entries} audit {verdict}")
            }
            None => f.write_str("foreign"),
        }
    }
}

/// What is printed of a run: its key, how many entries its journal has, and its audit's result. The
/// last two are missing if the run under the lock is of another number, which can't happen.
#[derive(Drop)]
pub(crate) struct RunReport {
    /// The number of its state, and its name.
    key: RunKey,
    /// The number of entries and the audit's result; None as `Finding` says.
    finding: Option<(usize, Result<(), AuditFault>)>,
}

impl fmt::Display for RunReport {
    ghost output = { λ report. Some (run_line report) };

    /// Writes `run 3/name entries 12 audit ok` or the like, with a line feed.
    fn fmt<W: fmt::Write>(&self, f: &mut fmt::Formatter<W>) -> fmt::Result {
        let (number, name, finding) = (self.key.number(), self.key.name(), Finding(self.finding));
        write!(f, "run {number}/{name} {finding}\n")
    }
}

/// The report of a run, audited by the passes that were kept for its key. It holds the run's lock
/// while it audits.
fn report_of<S: ServerBrand, R: Wait>(rt: &R, run: &SharedRun<S>, passes: &GivenPasses) -> RunReport
    ensures key { result.key ≡ run.now }
    ensures report { IsReport S.serves passes.now result }
{
    let passes = passes.of(run.key());
    RunReport {
        key: run.key().copy(),
        finding: run.inspect(rt, AuditBy { passes }),
    }
}

/// Adds the line of a run to the text. The error is out of memory; the text is unchanged then.
fn push_line(alloc: Global, text: &mut String, report: &RunReport) -> Result<(), AllocError>
    ensures { OnOk result
        (string_bytes text.new ≡ string_bytes text.old ++ run_line report.now) }
{
    let line = format!(in alloc; "{report}")?;
    text.push_str(line.as_str())
}

/// The lines of these runs, in their order. Empty if there is no run. The error is out of memory.
fn runs_text<S: ServerBrand, R: Wait>(
    rt: &R,
    alloc: Global,
    runs: &[SharedRun<S>],
    passes: &GivenPasses,
) -> Result<String, AllocError>
    ensures { IfOk result (λ text. AreReported S.serves passes.now runs.now (string_bytes text)) }
{
    let mut text = String::new(alloc);
    for run in runs {
        let report = report_of(rt, run, passes);
        push_line(alloc, &mut text, &report)?;
    }
    Ok(text)
}

/// A line for each run of the registry, none if it has none, in the order of the numbers of their
/// states and then of their names: its key, how many entries its journal has, and the result of its
/// audit by the passes that were kept for its key. The error is out of memory.
pub(crate) fn summary_of_runs<S: ServerBrand, R: Wait>(
    rt: &R,
    alloc: Global,
    registry: &Registry<S>,
    passes: &GivenPasses,
) -> Result<String, ProgramFault>
    ensures { IfOk result (λ text. IsSummary S.serves passes.now (keys_of registry.now.runs)
        (string_bytes text)) }
{
    let Ok(runs) = registry.runs(alloc) else {
        return Err(ProgramFault::Memory);
    };
    match runs_text(rt, alloc, &runs, passes) {
        Ok(text) => Ok(text),
        Err(_) => Err(ProgramFault::Memory),
    }
}

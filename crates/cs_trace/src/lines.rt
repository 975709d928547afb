//! Applies the lines of a trace, one after another, to the state of the lines so far. After a fault
//! the caller drops the state, so no clause says what is left of it.
ghost use Rattle.std.specs.Prelude.{◌≡◌, ◌≢◌, false, IfErr, IfOk, None, Some, Ok, Err, length};
ghost use Rattle.cs_trace.specs.Kept.{Freely, IsBounded, state_of};
ghost use Rattle.cs_trace_lines.specs.Lines.{line_in};
ghost use Rattle.cs_trace_lines.specs.Values.{is_blank};
ghost use Rattle.cs_trace.specs.Outcomes.{Leaves};
ghost use Rattle.cs_trace_lines.specs.Said.{line_value, operation_value};
ghost use Rattle.cs_trace.specs.States.{first_step, later_step, lines_in, state_in, step};
ghost use Rattle.cs_trace_lines.specs.Lines as said;
ghost use Rattle.cs_trace.specs.Traces.{MayWant};
ghost use Rattle.cs_trace.specs.declared.fault.TraceFaultKind.TheVariants.{Memory, Syntax};

use crate::fault::{TraceFault, TraceFaultKind};
use crate::resolve::resolve;
use crate::start::{apply_header, apply_link, apply_start};
use crate::state::LinesSoFar;
use cs_trace_lines::{Line, LineFault, OperationLine, Version, is_blank, read_line};
use std::alloc::Global;

/// The line that a text spells by itself, whatever the lines before it: `read_line`, with its fault
/// as one of a trace. A text that spells no line of this version is Syntax. Memory: memory ran out.
fn line_by_itself(alloc: Global, version: Version, text: &str) -> Result<Line, TraceFaultKind>
    ensures read { IfOk result (λ line. line_in version text.now ≡ Some (line_value line)) }
    ensures fault { IfErr result (λ kind. kind ≢ Memory → kind ≡ Syntax) }
    ensures none { IfErr result (λ kind. kind ≢ Memory → line_in version text.now ≡ None) }
{
    match read_line(alloc, version, text) {
        Ok(line) => Ok(line),
        Err(LineFault::Syntax) => Err(TraceFaultKind::Syntax),
        Err(LineFault::Memory) => Err(TraceFaultKind::Memory),
    }
}

/// Checks the line of an operation in the state (`resolve`, whose faults it returns), and applies
/// the operation (`LinesSoFar::apply`).
#[tactic(auto, using(crate::proofs::Within::resolve_within))]
fn apply_operation(
    alloc: Global,
    state: &mut LinesSoFar,
    line: OperationLine,
) -> Result<(), TraceFaultKind>
    requires { IsBounded (state_of state.old) }
    ensures { Leaves
        (later_step (state_of state.old) (said.Operation (operation_value line)))
        result (state_of state.new) Freely }
{
    let operation = resolve(alloc, state, line)?;
    state.apply(alloc, operation)?;
    Ok(())
}

/// Applies the first line that isn't blank. Any line but a header is Syntax; the other faults are
/// those of `apply_header`.
fn apply_first(alloc: Global, state: &mut LinesSoFar, line: Line) -> Result<(), TraceFaultKind>
    requires bounded { IsBounded (state_of state.old) }
    requires first { state.old.made ≡ 0 }
    ensures { Leaves
        (first_step (state_of state.old) (line_value line))
        result (state_of state.new) Freely }
{
    match line {
        Line::Header(version, claims) => apply_header(alloc, state, version, claims),
        _ => Err(TraceFaultKind::Syntax),
    }
}

/// Applies a line after the header that isn't blank. A second header is Syntax, and so is any start
/// line after an operation. An operation that the version doesn't have is UnknownOp, and so is a
/// start line of an unknown kind before the first operation. The other faults are those of
/// `apply_start`, `apply_link` and `apply_operation`.
fn apply_later(alloc: Global, state: &mut LinesSoFar, line: Line) -> Result<(), TraceFaultKind>
    requires { IsBounded (state_of state.old) }
    ensures { Leaves
        (later_step (state_of state.old) (line_value line))
        result (state_of state.new) Freely }
{
    let is_start = state.operations.is_empty();
    match line {
        Line::Header(..) => Err(TraceFaultKind::Syntax),
        Line::Start(line) if is_start => apply_start(alloc, state, line),
        Line::Start(_) => Err(TraceFaultKind::Syntax),
        Line::StartLink { path, from } if is_start => apply_link(alloc, state, &path, &from),
        Line::StartLink { .. } => Err(TraceFaultKind::Syntax),
        Line::UnknownStart if is_start => Err(TraceFaultKind::UnknownOp),
        Line::UnknownStart => Err(TraceFaultKind::Syntax),
        Line::Operation(line) => apply_operation(alloc, state, line),
        Line::UnknownOperation => Err(TraceFaultKind::UnknownOp),
    }
}

/// Applies the next line, given as its text. A line of JSON's blanks only changes nothing. A text
/// that is no line of the trace's version is Syntax; the other faults are those of `apply_first`
/// before the header and of `apply_later` after it.
fn apply_line(alloc: Global, state: &mut LinesSoFar, text: &str) -> Result<(), TraceFaultKind>
    requires { IsBounded (state_of state.old) }
    ensures { Leaves
        (step (state_of state.old) text.now)
        result (state_of state.new) (λ _. is_blank text.now ≡ false) }
{
    if is_blank(text) {
        return Ok(());
    }
    let line = line_by_itself(alloc, state.version, text)?;
    // The header makes the first record, that of the root.
    if state.made == 0 {
        apply_first(alloc, state, line)
    } else {
        apply_later(alloc, state, line)
    }
}

/// The state after all lines of the text, or the first fault, with the number of its line from 1.
/// Whether there was a header isn't checked here: if all lines are blank, `made` is 0.
pub(crate) fn state_after_lines(alloc: Global, text: &str) -> Result<LinesSoFar, TraceFault>
    ensures done { IfOk result (λ state. state_in (lines_in text.now) ≡ Ok (state_of state)) }
    ensures fault { IfErr result (λ fault. fault.kind ≢ Memory
        → state_in (lines_in text.now) ≡ Err fault) }
    ensures memory { IfErr result (λ fault. fault.kind ≡ Memory
        → MayWant (lines_in text.now) fault.line) }
{
    let mut state = LinesSoFar::new(alloc);
    for (i, line) in text.split('\n').enumerate() {
        if let Err(kind) = apply_line(alloc, &mut state, line) {
            return Err(TraceFault { line: i + 1, kind });
        }
    }
    Ok(state)
}

/// How many lines the text has, blank ones too. An empty text has one.
pub(crate) fn line_count(text: &str) -> usize
    ensures { result ≡ length (lines_in text.now) }
{
    text.split('\n').count()
}

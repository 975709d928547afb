//! Why a command ended with a fault, in a second line for people. Its first line is for scripts.
//! The only error of these functions is out of memory, after which nothing more is said.

use crate::line_reason::{reason_of_op, reason_of_syntax};
use crate::pick_reason::{count_holes, reason_of_pick};
use cs_inputs::{Inputs, ProgramFault, read_picks, scene_of};
use cs_names::limits::{MICRO_OPERATIONS, PLAN_STATES};
use cs_options::{Ask, Job, States};
use cs_plan::SceneFault;
use cs_trace::{TraceFault, TraceFaultKind};
use std::alloc::{AllocError, Global};
use std::io::Write;

/// The line of that number of a text; lines count from 1, and 0 counts as 1. Empty if the text has
/// fewer lines.
fn line_at(text: &str, number: usize) -> &str {
    text.split('\n').nth(number.saturating_sub(1)).unwrap_or("")
}

/// Why the line of a trace's fault is refused. None if no more can be said than the fault says.
fn reason_of_trace(
    alloc: Global,
    trace: &[u8],
    fault: &TraceFault,
) -> Result<Option<String>, AllocError> {
    let line = line_at(std::str::from_utf8(trace).unwrap_or(""), fault.line);
    match fault.kind {
        TraceFaultKind::Syntax => reason_of_syntax(alloc, line),
        TraceFaultKind::UnknownOp => reason_of_op(alloc, line),
        _ => Ok(None),
    }
}

/// How many states the plan of these inputs has, with holes or without. None if there is no plan,
/// also because memory runs out.
fn count_of(alloc: Global, inputs: &Inputs, holes: bool) -> Option<usize> {
    let inputs = Inputs { holes, ..*inputs };
    let scene = scene_of(alloc, &inputs).ok()?;
    Some(scene.plan().len())
}

/// The greatest number of these states; 0 if there is none.
fn greatest_of(states: &States) -> u32 {
    match states {
        States::One(number) => *number,
        States::Each(ranges) => ranges.iter().map(|range| range.last).max().unwrap_or(0),
        States::Changes(ranges) => ranges.iter().map(|range| range.last).max().unwrap_or(0),
    }
}

/// How many states there are, and how many with `--holes` if that isn't given. None if each number
/// of `states` has a state, or if there is no plan. It makes the plan again, once or twice.
fn reason_of_number(
    alloc: Global,
    inputs: &Inputs,
    states: &States,
) -> Result<Option<String>, AllocError> {
    let Some(count) = count_of(alloc, inputs, inputs.holes) else {
        return Ok(None);
    };
    if (greatest_of(states) as usize) < count {
        return Ok(None);
    }
    let with_holes = match count_of(alloc, inputs, true) {
        Some(with_holes) if !inputs.holes => with_holes,
        _ => return Ok(Some(format!(in alloc; "there are {count} states")?)),
    };
    let text = format!(in alloc; "there are {count} states; with --holes {with_holes}")?;
    Ok(Some(text))
}

/// The reason of `reason_of_trace`, after the path of the trace and the number of the line. None if
/// there is none.
fn reason_at_line(
    alloc: Global,
    inputs: &Inputs,
    path: &str,
    fault: &TraceFault,
) -> Result<Option<String>, AllocError> {
    let Some(reason) = reason_of_trace(alloc, inputs.trace, fault)? else {
        return Ok(None);
    };
    let line = fault.line;
    let text = format!(in alloc; "{path}:{line}: {reason}")?;
    Ok(Some(text))
}

/// Why a plan is too large: how many states a plan may have, and how many states and holes this
/// trace has. None if even its prefixes have no plan.
fn reason_of_size(alloc: Global, inputs: &Inputs) -> Result<Option<String>, AllocError> {
    let most = PLAN_STATES;
    let prefixes = Inputs {
        holes: false,
        picks: &[],
        ..*inputs
    };
    let Ok(scene) = scene_of(alloc, &prefixes) else {
        return Ok(None);
    };
    let (states, holes) = (scene.plan().len(), count_holes(scene.order()));
    let text = format!(in alloc;
        "a plan has at most {most} states: this trace has {states} without holes, and {holes} holes; leave holes or picks out, or record a shorter session"
    )?;
    Ok(Some(text))
}

/// Why the pick of that number in the picks file is not allowed. None if the file has no such pick,
/// if it can't be read again, or if the prefixes have no plan.
fn reason_of_picks(
    alloc: Global,
    inputs: &Inputs,
    pick: u32,
) -> Result<Option<String>, AllocError> {
    let prefixes = Inputs {
        holes: false,
        picks: &[],
        ..*inputs
    };
    let (Ok(scene), Ok(picks)) = (scene_of(alloc, &prefixes), read_picks(alloc, inputs.picks))
    else {
        return Ok(None);
    };
    match picks.get(pick as usize) {
        Some(places) => reason_of_pick(alloc, scene.order(), pick, places.as_slice()),
        None => Ok(None),
    }
}

/// Why a trace has no plan. None if no more can be said than the fault says, which is so for out of
/// memory.
fn reason_of_scene(
    alloc: Global,
    inputs: &Inputs,
    fault: &SceneFault,
) -> Result<Option<String>, AllocError> {
    let text = match fault {
        SceneFault::TooMany => {
            let most = MICRO_OPERATIONS;
            format!(in alloc;
                "a trace has at most {most} micro-operations: record a shorter session"
            )
        }
        SceneFault::PlanTooLarge => return reason_of_size(alloc, inputs),
        SceneFault::PickNotAllowed(pick) => return reason_of_picks(alloc, inputs, *pick),
        SceneFault::Memory => return Ok(None),
    };
    Ok(Some(text?))
}

/// What more can be said of the fault that ended a command. The plan is made again for this, which
/// finds a fault of the inputs; a fault of another kind has no reason here: None. The error is out
/// of memory.
fn reason_of(alloc: Global, inputs: &Inputs, ask: &Ask) -> Result<Option<String>, AllocError> {
    match scene_of(alloc, inputs) {
        Err(ProgramFault::Trace(fault)) => {
            reason_at_line(alloc, inputs, ask.wanted.trace, &fault)
        }
        Err(ProgramFault::Scene(fault)) => reason_of_scene(alloc, inputs, &fault),
        Err(_) => Ok(None),
        Ok(_) => match &ask.job {
            Job::Tar(options) => reason_of_number(alloc, inputs, &options.states),
            _ => Ok(None),
        },
    }
}

/// Prints on `err` what more can be said of the fault that ended a command: of a line of the trace,
/// of the plan, or of the number of a state. Nothing if no more can be said, or if memory runs out.
/// A failed write is ignored.
pub fn explain<E: Write>(alloc: Global, inputs: &Inputs, ask: &Ask, err: &mut E) {
    if let Ok(Some(reason)) = reason_of(alloc, inputs, ask) {
        let _unheard = writeln!(err, "crashfs: {reason}");
    }
}

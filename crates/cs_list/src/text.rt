//! The text of a list, by its options.
ghost use Rattle.std.specs.Prelude.{◌≡◌, ◌++◌, ℕ, IfErr, IfOk, List, length};
ghost use Rattle.std.specs.Arc.{arc_value};
ghost use Rattle.cs_inputs.specs.Written.{IsOfNoStream};
ghost use Rattle.cs_plan.specs.Lists.{list_text};
ghost use Rattle.cs_plan.specs.Scenes.{micros_of};
ghost use Rattle.cs_list.specs.Lines.{lines_of};
ghost use Rattle.cs_list.specs.Listings.{AreObjects, AreStateObjects, IsJson, IsText};

use crate::json_listing::{op_objects, state_objects};
use crate::lines::lines_of;
use crate::marked_listing::{push_op_lines, push_state_lines};
use cs_inputs::ProgramFault;
use cs_options::ListOptions;
use cs_plan::Scene;
use cs_same_states::first_same;
use std::alloc::{AllocError, Global};
use std::sync::Arc;

/// The text without options: a line for each micro-operation, and then one for each state. The
/// error is out of memory.
pub fn plain_text(alloc: Global, scene: &Scene) -> Result<Vec<u8>, ProgramFault>
    ensures text { IfOk result (λ text. text.items ≡ list_text scene.now) }
    ensures fault { IfErr result IsOfNoStream }
{
    let listing = scene.listing();
    match format!(in alloc; "{listing}") {
        Ok(text) => Ok(text.into_bytes()),
        Err(_) => Err(ProgramFault::Memory),
    }
}

/// For each micro-operation, the number of the trace's line that it came from. The error is
/// TraceNotText if the trace isn't UTF-8 (that of a scene always is), or out of memory.
fn lines_in(alloc: Global, trace: &[u8], scene: &Scene) -> Result<Vec<usize>, ProgramFault>
    ensures lines { IfOk result (λ lines. lines.items ≡ lines_of trace.now scene.now.trace) }
    ensures fault { IfErr result IsOfNoStream }
{
    let Ok(text) = std::str::from_utf8(trace) else {
        return Err(ProgramFault::TraceNotText);
    };
    match lines_of(alloc, text, scene.trace()) {
        Ok(lines) => Ok(lines),
        Err(_) => Err(ProgramFault::Memory),
    }
}

/// For each state, the number of the first one with an equal tree, which may be its own; an empty
/// list if the options don't ask for them. The error is out of memory.
fn firsts_in(
    alloc: Global,
    scene: &Arc<Scene>,
    options: ListOptions,
) -> Result<Vec<u32>, AllocError> {
    if !options.same {
        return Ok(Vec::new(alloc));
    }
    first_same(alloc, scene)
}

/// The text as JSON. `lines` has for each micro-operation the number of the trace's line, `firsts`
/// for each state the first one with an equal tree. The error is out of memory.
fn json_objects(
    alloc: Global,
    scene: &Scene,
    lines: &[usize],
    firsts: &[u32],
) -> Result<Vec<u8>, AllocError>
    ensures { IfOk result (λ text. (objects : List ℕ) × (states : List ℕ)
        × AreObjects scene.now lines.now (length (micros_of scene.now).ops) objects
        × AreStateObjects scene.now firsts.now (length scene.now.plan) states
        × (text.items ≡ objects ++ states)) }
{
    let mut text = op_objects(alloc, scene, lines)?;
    let states = state_objects(alloc, scene, firsts)?;
    text.extend_from_slice(&states)?;
    Ok(text)
}

/// The text as JSON. The error is out of memory; or TraceNotText if the trace isn't UTF-8, but that
/// of a scene always is.
fn json_text(alloc: Global, trace: &[u8], scene: &Arc<Scene>) -> Result<Vec<u8>, ProgramFault>
    ensures json { IfOk result (λ text. IsJson trace.now (arc_value scene.now) text.items) }
    ensures fault { IfErr result IsOfNoStream }
{
    let lines = lines_in(alloc, trace, scene)?;
    let Ok(firsts) = first_same(alloc, scene) else {
        return Err(ProgramFault::Memory);
    };
    match json_objects(alloc, scene, &lines, &firsts) {
        Ok(text) => Ok(text),
        Err(_) => Err(ProgramFault::Memory),
    }
}

/// The plain text, with the trace's lines, the first equal states, or both, as the options ask. The
/// error is as that of `json_text`.
fn marked_text(
    alloc: Global,
    trace: &[u8],
    scene: &Arc<Scene>,
    options: ListOptions,
) -> Result<Vec<u8>, ProgramFault>
    ensures { IfErr result IsOfNoStream }
{
    let lines = lines_in(alloc, trace, scene)?;
    let Ok(firsts) = firsts_in(alloc, scene, options) else {
        return Err(ProgramFault::Memory);
    };
    let mut text = Vec::new(alloc);
    push_op_lines(alloc, scene, &lines, options.lines, &mut text)?;
    push_state_lines(scene, &firsts, options.same, &mut text)?;
    Ok(text)
}

/// The text of the list of a scene, whose trace is `trace`. The error is out of memory.
pub fn text_of(
    alloc: Global,
    trace: &[u8],
    scene: &Arc<Scene>,
    options: ListOptions,
) -> Result<Vec<u8>, ProgramFault>
    ensures text { IfOk result (λ text. IsText options trace.now (arc_value scene.now) text.items) }
    ensures fault { IfErr result IsOfNoStream }
{
    if options.json {
        return json_text(alloc, trace, scene);
    }
    if options.lines || options.same {
        return marked_text(alloc, trace, scene, options);
    }
    plain_text(alloc, scene)
}

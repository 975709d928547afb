//! What the command line gave: the bytes of the files that it named.
ghost use Rattle.std.specs.Prelude.{◌≡◌, IfErr, IfOk, Ok};
ghost use Rattle.cs_apm.specs.Orders.{order_of};
ghost use Rattle.cs_micro.specs.Micros.{micros_in};
ghost use Rattle.cs_plan.specs.Plans.{plan_of};
ghost use Rattle.cs_trace.specs.Traces.{trace_in};
ghost use Rattle.cs_users.specs.Reading.{users_in};
ghost use Rattle.cs_inputs.specs.Picks.{picks_in};
ghost use Rattle.cs_inputs.specs.Refusals.{IsPicksFault, IsRefused, IsSceneFault, IsTraceFault};
ghost use Rattle.cs_inputs.specs.Refusals.{IsUsersFault};
ghost use Rattle.cs_inputs.specs.Scenes.{IsScene, IsSceneWith};
ghost use Rattle.cs_inputs.specs.Written.{IsOfNoStream};

use crate::fault::ProgramFault;
use crate::picks::read_picks;
use crate::picks_fault::PicksFault;
use cs_plan::{Places, Scene, SceneFault};
use cs_trace::{Trace, TraceFaultKind, read_trace};
use cs_users::{Users, UsersFault};
use std::alloc::Global;

/// What the command line gave: the bytes of each file that it named; no bytes for a file that it
/// didn't name.
#[derive(Clone, Copy, Debug)]
pub struct Inputs<'a> {
    /// The users file (users(6)); for `serve` without one, a file made of the trace's owners and
    /// groups.
    pub users: &'a [u8],
    /// One JSON object a line, which isn't checked yet.
    pub trace: &'a [u8],
    /// Further sets, one JSON array of places a line.
    pub picks: &'a [u8],
    /// Whether the plan has states of prefixes with a hole too.
    pub holes: bool,
    /// Whether each message is also printed on standard error.
    pub verbose: bool,
}

/// The trace that the bytes spell. An error is TraceNotText if they aren't UTF-8, else the fault of
/// the first line at fault, or Memory.
fn trace_of(alloc: Global, trace: &[u8]) -> Result<Trace, ProgramFault>
    ensures read { IfOk result (λ read. trace_in trace.now ≡ Ok read) }
    ensures fault { IfErr result (IsTraceFault trace.now) }
{
    let Ok(text) = std::str::from_utf8(trace) else {
        return Err(ProgramFault::TraceNotText);
    };
    match read_trace(alloc, text) {
        Ok(trace) => Ok(trace),
        Err(fault) if fault.kind == TraceFaultKind::Memory => Err(ProgramFault::Memory),
        Err(fault) => Err(ProgramFault::Trace(fault)),
    }
}

/// The picks that the bytes of a picks file spell; none if there are no bytes. An error is the
/// fault of the first line at fault, or Memory.
fn picks_of(alloc: Global, picks: &[u8]) -> Result<Vec<Places>, ProgramFault>
    ensures read { IfOk result (λ read. picks_in picks.now ≡ Ok read.items) }
    ensures fault { IfErr result (IsPicksFault picks.now) }
{
    match read_picks(alloc, picks) {
        Ok(picks) => Ok(picks),
        Err(PicksFault::Memory) => Err(ProgramFault::Memory),
        Err(fault) => Err(ProgramFault::Picks(fault)),
    }
}

/// The scene of a trace and its picks. An error is Memory, or the scene's first fault: too many
/// micro-operations, a plan that is too large, or a pick that a crash can't leave.
fn scene_of_parts(
    alloc: Global,
    trace: Trace,
    holes: bool,
    picks: Vec<Places>,
) -> Result<Scene, ProgramFault>
    ensures made { IfOk result (λ scene. scene ≡ record {
      trace = trace;
      plan = plan_of (order_of (micros_in trace)) holes picks.items;
    }) }
    ensures fault { IfErr result (IsSceneFault trace holes picks.items) }
{
    match Scene::of(alloc, trace, holes, picks) {
        Ok(scene) => Ok(scene),
        Err(SceneFault::Memory) => Err(ProgramFault::Memory),
        Err(fault) => Err(ProgramFault::Scene(fault)),
    }
}

/// The scene of the inputs. An error is Memory, or the first fault: of the trace, then of the lines
/// of the picks file, and then of the scene that is made of both.
pub fn scene_of(alloc: Global, inputs: &Inputs) -> Result<Scene, ProgramFault>
    ensures scene { IfOk result (IsScene inputs.now) }
    ensures refused { IfErr result (IsRefused inputs.now) }
    ensures fault { IfErr result IsOfNoStream }
{
    let trace = trace_of(alloc, inputs.trace)?;
    let picks = picks_of(alloc, inputs.picks)?;
    scene_of_parts(alloc, trace, inputs.holes, picks)
}

/// The scene of the inputs with these picks after those of the picks file. An error is as that of
/// `scene_of`.
pub fn scene_with(
    alloc: Global,
    inputs: &Inputs,
    mut more: Vec<Places>,
) -> Result<Scene, ProgramFault>
    ensures scene { IfOk result (IsSceneWith inputs.now more.items) }
    ensures fault { IfErr result IsOfNoStream }
{
    let trace = trace_of(alloc, inputs.trace)?;
    let mut picks = picks_of(alloc, inputs.picks)?;
    match picks.append(&mut more) {
        Ok(()) => scene_of_parts(alloc, trace, inputs.holes, picks),
        Err(_) => Err(ProgramFault::Memory),
    }
}

/// The users of a users file. An error is the file's first fault, or Memory.
pub fn users_of(alloc: Global, users: &[u8]) -> Result<Users, ProgramFault>
    ensures read { IfOk result (λ read. users_in users.now ≡ Ok read) }
    ensures refused { IfErr result (IsUsersFault users.now) }
    ensures fault { IfErr result IsOfNoStream }
{
    match Users::read(alloc, users) {
        Ok(users) => Ok(users),
        Err(UsersFault::Memory) => Err(ProgramFault::Memory),
        Err(fault) => Err(ProgramFault::Users(fault)),
    }
}

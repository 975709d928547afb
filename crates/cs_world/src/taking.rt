//! A step of a connection over its port, for a world and for one that notes calls.
ghost use Rattle.cs_session.specs.Steps.{IsStepTaken};
ghost use Rattle.cs_world.specs.ConnectionSteps.{session_step};

use crate::step::ConnectionStep;
use cs_session::{Port, Reply, Session};
use std::alloc::Global;

/// Takes a step of a connection at the moment `now`, over its port `runs`, and returns the reply.
/// The functions of `Session` that it calls say what a refusal leaves.
pub(crate) fn take_session_step<P: Port>(
    alloc: Global,
    session: &mut Session,
    runs: &mut P,
    now: u32,
    step: ConnectionStep,
) -> Reply
    ensures { IsStepTaken P.gives now session.old runs.old (session_step step) result session.new
        runs.new }
{
    match step {
        ConnectionStep::Find(message) => session.find_step(alloc, runs, message),
        ConnectionStep::Attach => session.attach_step(alloc, runs, now),
        ConnectionStep::Call(message) => session.call_step(alloc, runs, now, message),
        ConnectionStep::Close(fid) => session.close_step(alloc, runs, now, fid),
        ConnectionStep::Table(change) => session.table_step(change),
    }
}

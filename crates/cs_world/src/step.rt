//! The steps of a world.
ghost use Rattle.std.specs.Prelude.{◌≡◌, IfOk};

use cs_session::{AttachMessage, CallMessage, TableStep};
use cs_users::Users;
use std::alloc::{AllocError, Global};

/// A step that a connection takes. A message is one or several of these (`World::message`).
#[derive(Debug, Drop)]
pub enum ConnectionStep {
    /// The run of an attach is found, and then awaits the attach (attach(5)).
    Find(AttachMessage),
    /// The user of that find is attached to its run (attach(5)).
    Attach,
    /// A call on a fid's run.
    Call(CallMessage<'static>),
    /// The open fid of that number is closed (clunk(5)).
    Close(u32),
    /// The connection's own fids and message size are changed; no run is asked.
    Table(TableStep),
}

impl ConnectionStep {
    /// A copy of the connection's step. The error is out of memory.
    fn try_clone(&self, alloc: Global) -> Result<ConnectionStep, AllocError>
        ensures { IfOk result (λ copy. copy ≡ self.now) }
    {
        Ok(match self {
            ConnectionStep::Find(message) => ConnectionStep::Find(message.try_clone()?),
            ConnectionStep::Attach => ConnectionStep::Attach,
            ConnectionStep::Call(message) => ConnectionStep::Call(message.try_clone(alloc)?),
            ConnectionStep::Close(fid) => ConnectionStep::Close(*fid),
            ConnectionStep::Table(change) => ConnectionStep::Table(change.try_clone()?),
        })
    }
}

/// A step of a world: a publish, a reload, or a step of a connection.
#[derive(Debug, Drop)]
pub enum Step {
    /// The state of that number is made and published.
    Publish(u32),
    /// Another list of users is loaded: the runs that are made from then on have it.
    Reload(Users),
    /// A step of the connection of that number at that moment, in seconds since 1970. The moment of
    /// a find, and of a change of the table, isn't used.
    On {
        conn: u32,
        now: u32,
        step: ConnectionStep,
    },
}

impl Step {
    /// A copy of the world's step: a reload's list of users is copied too. The error is out of
    /// memory.
    pub(crate) fn try_clone(&self, alloc: Global) -> Result<Step, AllocError>
        ensures { IfOk result (λ copy. copy ≡ self.now) }
    {
        Ok(match self {
            Step::Publish(number) => Step::Publish(*number),
            Step::Reload(users) => Step::Reload(users.try_clone(alloc)?),
            Step::On { conn, now, step } => Step::On {
                conn: *conn,
                now: *now,
                step: step.try_clone(alloc)?,
            },
        })
    }
}

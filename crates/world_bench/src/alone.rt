//! A session over one run only, without a world.
ghost use Rattle.std.specs.Prelude.{IfSome};
ghost use Rattle.std.specs.Arc.{arc_value};
ghost use Rattle.cs_journal.specs.Bounds.{CanGrow};

use cs_journal::{Pass, Run, can_grow};
use cs_names::Text;
use cs_permit::{AttachCall, Call, TreeName};
use cs_plan::{Built, Scene};
use cs_run::Answer;
use cs_session::{FindFault, PassFault, Port, Session};
use cs_users::Users;
use cs_wire::{RBody, encode_reply};
use std::alloc::Global;
use std::marker::Model;
use std::sync::Arc;

/// One run and its only pass, both at the place 0.
#[derive(Drop)]
struct LoneRun {
    run: Run<Built>,
    pass: Pass,
}

impl Model for LoneRun {
    ghost use Rattle.std.specs.Prelude.{ℕ};
    ghost use Rattle.cs_journal.specs.Runs.{Fits};

    ghost Value = { ℕ };

    ghost view = { λ l. 0 };

    ghost invariant = { λ l. Fits l.run l.pass };
}

impl Port for LoneRun {
    ghost gives = { λ before question told after. Unit {0} };

    /// Finds the one run, whatever the name is.
    fn find(&mut self, _alloc: Global, _name: &TreeName) -> Result<u32, FindFault> {
        Ok(0)
    }

    /// Attaches under the one pass.
    fn attach(
        &mut self,
        alloc: Global,
        now: u32,
        _run: u32,
        user: Text,
    ) -> Result<(u32, Answer), PassFault> {
        let call = Call::Attach(AttachCall { user });
        let answer = self.run.step(alloc, &mut self.pass, now, call);
        Ok((0, answer))
    }

    /// Makes a call on the one run, under its pass.
    fn call(&mut self, alloc: Global, now: u32, _run: u32, _pass: u32, call: Call<'_>) -> Answer {
        self.run.step(alloc, &mut self.pass, now, call)
    }
}

/// The scene's state 0; None if no run can begin with it, or memory runs out.
fn state_of(alloc: Global, scene: Scene) -> Option<Arc<Built>>
    ensures { IfSome result (λ lower. CanGrow (arc_value lower)) }
{
    let scene = Arc::new(alloc, scene).ok()?;
    let store = Scene::make(alloc, &scene, 0).ok()?.into_store();
    if !can_grow(&store) {
        return None;
    }
    Arc::new(alloc, store).ok()
}

impl LoneRun {
    /// A fresh run over the tree, and its first pass. None if memory runs out.
    fn over(alloc: Global, lower: Arc<Built>, users: Arc<Users>) -> Option<LoneRun>
        requires { CanGrow (arc_value lower) }
    {
        let mut run = Run::fresh(alloc, lower, users).ok()?;
        let pass = run.new_pass(alloc).ok()?;
        Some(LoneRun { run, pass })
    }
}

/// A session, and the run of its fids.
#[derive(Drop)]
pub struct Alone {
    session: Session,
    port: LoneRun,
}

impl Alone {
    /// A session that has not begun, over a fresh run of the scene's state 0. None if that can't be
    /// made.
    pub fn new(alloc: Global, scene: Scene, users: Users) -> Option<Alone> {
        let lower = state_of(alloc, scene)?;
        let users = Arc::new(alloc, users).ok()?;
        Some(Alone {
            session: Session::new(alloc),
            port: LoneRun::over(alloc, lower, users)?,
        })
    }

    /// Sends a message, and encodes its reply in a buffer that is reused. None if it is denied.
    pub fn send(&mut self, alloc: Global, bytes: &[u8], out: &mut Vec<u8>) -> Option<()> {
        if bytes.len() < 7 || self.session.awaits_attach() {
            return None;
        }
        let reply = self.session.reply(alloc, &mut self.port, 1, bytes);
        if let RBody::Error { .. } = reply.body {
            return None;
        }
        out.clear();
        encode_reply(&reply, out).ok()
    }
}

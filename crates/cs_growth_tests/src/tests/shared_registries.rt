//! The calls of a registry that threads share.

use super::rows::{Row, expect_swept};
use super::scene::{of_world, start_users};
use super::shared::{attached_run, published_registry, unpublished_registry};
use cs_names::RunName;
use cs_permit::FindFault;
use cs_plan::{Published, Scene};
use cs_registry::{PublishFault, RunKey};
use cs_shared_runs::{AnyScene, SharedRegistry, SharedRun};
use cs_test_memory::{End, Subject};
use cs_users::Users;
use std::alloc::{AllocError, Global};
use std::sync::{Arc, Wait};

#[derive(Clone, Copy)]
enum Call {
    New,
    Publish,
    /// A new run.
    Find,
    FindKey,
    Reload,
    Runs,
}

/// Which call, and the runtime by which its locks wait.
struct Asked<'r, R> {
    rt: &'r R,
    kind: Call,
}

impl<R> Clone for Asked<'_, R> {
    fn clone(&self) -> Result<Self, AllocError> {
        Ok(*self)
    }
}

impl<R> Copy for Asked<'_, R> {}

/// A registry, and what its next call is given.
#[derive(Drop)]
struct Kept<'r, R: Wait> {
    rt: &'r R,
    registry: SharedRegistry<AnyScene>,
    given: Option<Given>,
}

/// What a call is given.
#[derive(Drop)]
struct Given {
    scene: Arc<Scene>,
    shared: Arc<Users>,
    users: Users,
    state: Published,
    name: RunName,
}

fn given_for(alloc: Global) -> Option<Given> {
    let (scene, shared) = of_world(alloc)?;
    let state = Scene::make(alloc, &scene, 0).ok()?;
    Some(Given {
        scene,
        shared,
        users: start_users(alloc)?,
        state,
        name: RunName::read(alloc, b"new").ok()?,
    })
}

/// What a call returns.
#[derive(Drop)]
enum Told {
    Nothing,
    Run(SharedRun<AnyScene>),
    Runs(Vec<SharedRun<AnyScene>>),
}

/// Adds the key of a run.
fn push_run(text: &mut String, run: &SharedRun<AnyScene>) -> Option<()> {
    let key = run.key();
    write!(text, " {}/{}", key.number(), key.name()).ok()
}

fn push_runs(text: &mut String, runs: &[SharedRun<AnyScene>]) -> Option<()> {
    for run in runs {
        push_run(text, run)?;
    }
    Some(())
}

fn find_end(found: Result<SharedRun<AnyScene>, FindFault>) -> Option<End<Told>> {
    match found {
        Ok(run) => Some(End::Done(Told::Run(run))),
        Err(FindFault::Memory) => Some(End::Short),
        Err(_) => None,
    }
}

impl<'r, R: Wait> Kept<'r, R> {
    /// What the next call is given: made again after a refusal.
    fn next_given(&mut self, alloc: Global) -> Option<Given> {
        match self.given.take() {
            Some(given) => Some(given),
            None => given_for(alloc),
        }
    }

    /// Another registry in this one's place.
    fn renew(&mut self, alloc: Global) -> Option<End<Told>> {
        let given = self.next_given(alloc)?;
        match SharedRegistry::<AnyScene>::new(alloc, given.scene, given.shared) {
            Ok(registry) => {
                self.registry = registry;
                Some(End::Done(Told::Nothing))
            }
            Err(_) => Some(End::Short),
        }
    }

    fn publish(&mut self, alloc: Global) -> Option<End<Told>> {
        let given = self.next_given(alloc)?;
        match self.registry.publish(self.rt, alloc, given.state) {
            Ok(()) => Some(End::Done(Told::Nothing)),
            Err(PublishFault::Memory) => Some(End::Short),
            Err(_) => None,
        }
    }

    fn find(&mut self, alloc: Global) -> Option<End<Told>> {
        let given = self.next_given(alloc)?;
        let found = self.registry.find(self.rt, alloc, 0, &given.name);
        find_end(found)
    }

    fn find_key(&mut self, alloc: Global) -> Option<End<Told>> {
        let given = self.next_given(alloc)?;
        let key = RunKey::new(0, &given.name);
        let found = self.registry.find_key(self.rt, alloc, key);
        find_end(found)
    }

    fn reload(&mut self, alloc: Global) -> Option<End<Told>> {
        let given = self.next_given(alloc)?;
        match self.registry.reload(self.rt, alloc, given.users) {
            Ok(_) => Some(End::Done(Told::Nothing)),
            Err(_) => Some(End::Short),
        }
    }

    fn runs(&mut self, alloc: Global) -> Option<End<Told>> {
        match self.registry.runs(self.rt, alloc) {
            Ok(runs) => Some(End::Done(Told::Runs(runs))),
            Err(_) => Some(End::Short),
        }
    }
}

impl<'r, R: Wait> Subject for Kept<'r, R> {
    type Row = Row<Asked<'r, R>>;

    type Answer = Told;

    fn start(alloc: Global, row: &Row<Asked<'r, R>>) -> Option<Kept<'r, R>> {
        let rt = row.1.rt;
        let registry = match row.1.kind {
            Call::Publish => unpublished_registry(alloc)?,
            _ => published_registry(rt, alloc)?,
        };
        if let Call::Runs = row.1.kind {
            let _x = attached_run(rt, alloc, &registry)?;
        }
        Some(Kept {
            rt,
            registry,
            given: given_for(alloc),
        })
    }

    fn call(&mut self, alloc: Global, row: &Row<Asked<'r, R>>) -> Option<End<Told>> {
        match row.1.kind {
            Call::New => self.renew(alloc),
            Call::Publish => self.publish(alloc),
            Call::Find => self.find(alloc),
            Call::FindKey => self.find_key(alloc),
            Call::Reload => self.reload(alloc),
            Call::Runs => self.runs(alloc),
        }
    }

    fn push(answer: Told, said: &mut String) -> Option<()> {
        match answer {
            Told::Nothing => Some(()),
            Told::Run(run) => push_run(said, &run),
            Told::Runs(runs) => push_runs(said, &runs),
        }
    }

    fn tell(&mut self, alloc: Global, told: &mut String) -> Option<()> {
        let Kept { rt, registry, .. } = self;
        write!(told, "{} missing", registry.missing(*rt)).ok()?;
        let runs = registry.runs(*rt, alloc).ok()?;
        push_runs(told, &runs)
    }

    fn spent(_row: &Row<Asked<'r, R>>, _said: &str) -> Option<bool> {
        None
    }
}

fn row<'r, R>(name: &'static str, rt: &'r R, kind: Call) -> Row<Asked<'r, R>> {
    Row(name, Asked { rt, kind })
}

fn rows<R: Wait>(rt: &R) -> [Row<Asked<'_, R>>; 6] {
    [
        row("cs_shared_runs SharedRegistry::new", rt, Call::New),
        row("cs_shared_runs SharedRegistry::publish", rt, Call::Publish),
        row("cs_shared_runs SharedRegistry::find", rt, Call::Find),
        row("cs_shared_runs SharedRegistry::find_key", rt, Call::FindKey),
        row("cs_shared_runs SharedRegistry::reload", rt, Call::Reload),
        row("cs_shared_runs SharedRegistry::runs", rt, Call::Runs),
    ]
}

/// A registry that threads share is made, publishes its state, finds a run, loads users and lists
/// its runs.
#[test]
fn a_shared_registry_stays_as_it_was(rt: HostRuntime) {
    expect_swept::<Asked<HostRuntime>, Kept<HostRuntime>>(&rt, &rows(&rt));
}

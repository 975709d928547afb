//! The calls of a registry.
ghost use Rattle.std.specs.Prelude.{◌≡◌};

use super::rows::{Row, expect_swept};
use super::scene::{of_world, start_users};
use cs_names::RunName;
use cs_plan::{Built, MakeFault, Scene};
use cs_registry::{FindFault, Held, PublishFault, RunKey, States};
use cs_test_memory::{End, Subject};
use cs_users::Users;
use std::alloc::{AllocError, Global};
use std::sync::Arc;

#[derive(Clone, Copy)]
enum Call {
    New,
    /// State 0, which is made in the same call.
    Publish,
    PublishOwn,
    Find,
    FindKey,
    Reload,
}

/// What is kept of a run here: its number.
#[derive(Drop)]
struct Note {
    number: u32,
}

impl Held for Note {
    ghost admits = { λ number tree. Unit {0} };

    ghost is_fresh = { λ key tree users note. note ≡ record { number = key.number } };

    fn fresh(
        _alloc: Global,
        key: &RunKey,
        _lower: Arc<Built>,
        _users: Arc<Users>,
    ) -> Result<Note, AllocError> {
        Ok(Note {
            number: key.number(),
        })
    }
}

/// A registry, and what its next call is given.
#[derive(Drop)]
struct Kept {
    states: States<Note>,
    given: Option<(Arc<Scene>, Arc<Users>)>,
    users: Option<Users>,
    name: RunName,
}

fn publish_end(told: Result<(), PublishFault>) -> Option<End<u32>> {
    match told {
        Ok(()) => Some(End::Done(0)),
        Err(PublishFault::Memory) => Some(End::Short),
        Err(_) => None,
    }
}

fn publish(alloc: Global, states: &mut States<Note>) -> Option<End<u32>> {
    match Scene::make(alloc, states.scene(), 0) {
        Ok(state) => publish_end(states.publish(alloc, state)),
        Err(MakeFault::Memory) => Some(End::Short),
        Err(MakeFault::NoSuchState) => None,
    }
}

fn publish_own(alloc: Global, states: &mut States<Note>) -> Option<End<u32>> {
    match Scene::make(alloc, states.scene(), 0) {
        Ok(state) => publish_end(states.publish_own(alloc, state)),
        Err(MakeFault::Memory) => Some(End::Short),
        Err(MakeFault::NoSuchState) => None,
    }
}

fn find_end(found: Result<u32, FindFault>) -> Option<End<u32>> {
    match found {
        Ok(place) => Some(End::Done(place)),
        Err(FindFault::Memory) => Some(End::Short),
        Err(_) => None,
    }
}

impl Kept {
    /// Another registry in this one's place.
    fn renew(&mut self, alloc: Global) -> Option<End<u32>> {
        let (scene, users) = match self.given.take() {
            Some(given) => given,
            None => of_world(alloc)?,
        };
        match States::new(alloc, scene, users) {
            Ok(states) => {
                self.states = states;
                Some(End::Done(0))
            }
            Err(_) => Some(End::Short),
        }
    }
}

impl Kept {
    fn reload(&mut self, alloc: Global) -> Option<End<u32>> {
        let users = match self.users.take() {
            Some(users) => users,
            None => start_users(alloc)?,
        };
        match self.states.reload(alloc, users) {
            Ok(()) => Some(End::Done(0)),
            Err(_) => Some(End::Short),
        }
    }
}

impl Subject for Kept {
    type Row = Row<Call>;

    /// The place of a run.
    type Answer = u32;

    fn start(alloc: Global, row: &Row<Call>) -> Option<Kept> {
        let name = RunName::read(alloc, b"x").ok()?;
        let (scene, users) = of_world(alloc)?;
        let mut states = States::new(alloc, scene, users).ok()?;
        if let Call::Find | Call::FindKey = row.1 {
            publish(alloc, &mut states)?;
        }
        Some(Kept {
            states,
            given: of_world(alloc),
            users: start_users(alloc),
            name,
        })
    }

    fn call(&mut self, alloc: Global, row: &Row<Call>) -> Option<End<u32>> {
        match row.1 {
            Call::New => self.renew(alloc),
            Call::Publish => publish(alloc, &mut self.states),
            Call::PublishOwn => publish_own(alloc, &mut self.states),
            Call::Reload => self.reload(alloc),
            Call::Find => find_end(self.states.find(alloc, 0, &self.name)),
            Call::FindKey => {
                let key = RunKey::new(0, &self.name);
                find_end(self.states.find_key(alloc, key))
            }
        }
    }

    fn push(place: u32, said: &mut String) -> Option<()> {
        write!(said, "{place}").ok()
    }

    fn tell(&mut self, _alloc: Global, told: &mut String) -> Option<()> {
        let (missing, runs) = (self.states.missing(), self.states.run_count());
        let place = self.states.place_of(&RunKey::new(0, &self.name));
        write!(told, "{missing} missing, {runs} runs, {place:?}").ok()
    }

    fn spent(_row: &Row<Call>, _said: &str) -> Option<bool> {
        None
    }
}

const ROWS: [Row<Call>; 6] = [
    Row("cs_registry States::new", Call::New),
    Row("cs_registry States::publish", Call::Publish),
    Row("cs_registry States::publish_own", Call::PublishOwn),
    Row("cs_registry States::find", Call::Find),
    Row("cs_registry States::find_key", Call::FindKey),
    Row("cs_registry States::reload", Call::Reload),
];

/// A registry that is made, a state that is published, a run that is found, users that are loaded.
#[test]
fn a_registry_stays_as_it_was(rt: HostRuntime) {
    expect_swept::<Call, Kept>(&rt, &ROWS);
}

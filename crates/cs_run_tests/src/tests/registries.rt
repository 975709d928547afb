//! Published states and found runs, for any kind of value that a registry keeps of a run.
ghost use Rattle.std.specs.Prelude.{◌≡◌};

use cs_names::RunName;
use cs_plan::{Built, Scene};
use cs_registry::{FindFault, Held, PublishFault, RunKey, States};
use cs_trace::read_trace;
use cs_users::Users;
use std::alloc::{AllocError, Global};
use std::process::Abort;
use std::sync::Arc;

const HEADER: &str = "{\"trace\":1,\"owner\":\"cat\",\"group\":\"staff\",\"mode\":\"775\"}\n";

const MKDIR: &str = r#"{"trace":1,"owner":"cat","group":"staff","mode":"775"}
{"op":"mkdir","path":"/d","owner":"ann","group":"staff","mode":"755"}
"#;

/// What is kept of a run in these tests: the number of its state, and what was noted.
#[derive(Drop)]
struct Note {
    number: u32,
    text: u32,
}

impl Held for Note {
    ghost admits = { λ number tree. Unit {0} };

    ghost is_fresh = { λ key tree users note. note ≡ record { number = key.number; text = 0 } };

    fn fresh(
        _alloc: Global,
        key: &RunKey,
        _lower: Arc<Built>,
        _users: Arc<Users>,
    ) -> Result<Note, AllocError> {
        Ok(Note {
            number: key.number(),
            text: 0,
        })
    }
}

fn scene_of(rt: &(impl Abort + AllocGlobal), trace: &str) -> Arc<Scene> {
    let trace = read_trace(rt.alloc(), trace).expect(rt, "a trace");
    let scene = Scene::of(rt.alloc(), trace, false, Vec::new(rt.alloc()));
    Arc::new(rt.alloc(), scene.expect(rt, "a scene")).expect(rt, "memory")
}

fn registry_of(rt: &(impl Abort + AllocGlobal), trace: &str) -> States<Note> {
    let users = Users::read(rt.alloc(), b"1:ann::\n").expect(rt, "users");
    let users = Arc::new(rt.alloc(), users).expect(rt, "memory");
    States::new(rt.alloc(), scene_of(rt, trace), users).expect(rt, "memory")
}

/// Makes a state of another scene, and publishes it.
fn publish_of(
    alloc: Global,
    states: &mut States<Note>,
    scene: &Arc<Scene>,
    number: u32,
) -> Result<(), PublishFault> {
    match Scene::make(alloc, scene, number) {
        Ok(made) => states.publish(alloc, made),
        Err(_) => Err(PublishFault::Memory),
    }
}

/// Makes a state of their scene, and publishes it.
fn publish(alloc: Global, states: &mut States<Note>, number: u32) -> Result<(), PublishFault> {
    match Scene::make(alloc, states.scene(), number) {
        Ok(made) => states.publish(alloc, made),
        Err(_) => Err(PublishFault::Memory),
    }
}

/// Makes a state of their scene, and publishes it without a comparison of scenes.
fn publish_own(alloc: Global, states: &mut States<Note>, number: u32) -> Result<(), PublishFault> {
    match Scene::make(alloc, states.scene(), number) {
        Ok(made) => states.publish_own(alloc, made),
        Err(_) => Err(PublishFault::Memory),
    }
}

/// Of two states one is published, then again (Twice), then the other: 2, 1, 1 and 0 are missing.
#[test]
fn a_state_is_published_once(rt: HostRuntime) {
    let mut states = registry_of(&rt, MKDIR);
    assert!(rt; states.missing() == 2);
    assert!(rt; publish(rt.alloc(), &mut states, 1).is_ok());
    assert!(rt; states.missing() == 1);
    assert!(rt; publish(rt.alloc(), &mut states, 1) == Err(PublishFault::Twice));
    assert!(rt; publish(rt.alloc(), &mut states, 0).is_ok());
    assert!(rt; states.missing() == 0);
}

/// A state of a scene with other operations is a Stranger, under a number of the plan too; one of
/// another scene of the same trace is taken.
#[test]
fn a_state_of_a_scene_of_other_content_is_a_stranger(rt: HostRuntime) {
    let mut states = registry_of(&rt, HEADER);
    let other = scene_of(&rt, MKDIR);
    let stranger = Err(PublishFault::Stranger);
    assert!(rt; publish_of(rt.alloc(), &mut states, &other, 0) == stranger);
    assert!(rt; publish_of(rt.alloc(), &mut states, &other, 1) == stranger);
    assert!(rt; states.missing() == 1);
    let same = scene_of(&rt, HEADER);
    assert!(rt; publish_of(rt.alloc(), &mut states, &same, 0).is_ok());
    assert!(rt; states.missing() == 0);
}

/// A state of the registry's own scene is taken with no comparison, and is Twice then.
#[test]
fn a_state_of_its_own_scene_is_published_with_no_comparison(rt: HostRuntime) {
    let mut states = registry_of(&rt, HEADER);
    assert!(rt; publish_own(rt.alloc(), &mut states, 0).is_ok());
    assert!(rt; publish_own(rt.alloc(), &mut states, 0) == Err(PublishFault::Twice));
}

/// The place of the run that is found.
fn find(
    alloc: Global,
    states: &mut States<Note>,
    number: u32,
    name: &str,
) -> Result<u32, FindFault> {
    match RunName::read(alloc, name.as_bytes()) {
        Ok(name) => states.find(alloc, number, &name),
        Err(_) => Err(FindFault::Memory),
    }
}

/// Run `x` of state 0 is A4 before the state is published, and of state 1 after it. It is found 64
/// times at place 0, and the 65th find is A5; run `y` is found at place 1.
#[test]
fn a_run_is_found_64_times_and_only_if_its_state_is_published(rt: HostRuntime) {
    let mut states = registry_of(&rt, HEADER);
    assert!(rt; find(rt.alloc(), &mut states, 0, "x") == Err(FindFault::Unpublished));
    assert!(rt; publish(rt.alloc(), &mut states, 0).is_ok());
    assert!(rt; find(rt.alloc(), &mut states, 1, "x") == Err(FindFault::Unpublished));
    for _ in 0..64 {
        assert!(rt; find(rt.alloc(), &mut states, 0, "x") == Ok(0));
    }
    assert!(rt; find(rt.alloc(), &mut states, 0, "x") == Err(FindFault::Full));
    assert!(rt; find(rt.alloc(), &mut states, 0, "y") == Ok(1));
    assert!(rt; find(rt.alloc(), &mut states, 0, "x") == Err(FindFault::Full));
    assert!(rt; states.run_count() == 2);
}

/// Looks at what is kept of a run, and at its key.
fn expect_run(rt: &impl Abort, states: &States<Note>, place: u32, text: u32) {
    assert!(rt; place < states.run_count());
    let note = states.held_at(place);
    assert!(rt; note.number == place && note.text == text);
    let key = states.key_at(place);
    assert!(rt; key.number() == place && key.name() == "a");
}

/// Runs `a` of states 0 and 1 are two: what is written to the first is there at its next look, and
/// not in the second.
#[test]
fn a_run_is_what_was_left_of_it_and_no_other_is(rt: HostRuntime) {
    let mut states = registry_of(&rt, MKDIR);
    assert!(rt; publish(rt.alloc(), &mut states, 0).is_ok());
    assert!(rt; publish(rt.alloc(), &mut states, 1).is_ok());
    assert!(rt; find(rt.alloc(), &mut states, 0, "a") == Ok(0));
    assert!(rt; find(rt.alloc(), &mut states, 1, "a") == Ok(1));
    assert!(rt; find(rt.alloc(), &mut states, 0, "a") == Ok(0));
    assert!(rt; states.run_count() == 2);
    assert!(rt; 0 < states.run_count());
    states.held_at_mut(0).text = 7;
    expect_run(&rt, &states, 0, 7);
    expect_run(&rt, &states, 1, 0);
}

/// Finds the run of state 0 whose name is a number, by its key, at that place.
fn expect_numbered(rt: &(impl Abort + AllocGlobal), states: &mut States<Note>, number: u32) {
    let name = format!(in rt.alloc(); "{number}").expect(rt, "memory");
    let key = RunKey::read(0, name.as_bytes()).expect(rt, "digits are a run's name");
    assert!(rt; states.find_key(rt.alloc(), key) == Ok(number));
}

/// There are 4,096 runs; one more is A5, and the last of them is found again. `A` is no run's name.
#[test]
fn a_new_run_is_one_of_4096(rt: HostRuntime) {
    let mut states = registry_of(&rt, HEADER);
    assert!(rt; publish(rt.alloc(), &mut states, 0).is_ok());
    for number in 0..4096u32 {
        expect_numbered(&rt, &mut states, number);
    }
    assert!(rt; find(rt.alloc(), &mut states, 0, "4096") == Err(FindFault::Full));
    assert!(rt; find(rt.alloc(), &mut states, 0, "4095") == Ok(4095));
    assert!(rt; RunKey::read(0, b"A").is_none());
}

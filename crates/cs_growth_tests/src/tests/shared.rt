//! A registry that threads share, and a run of it, in one thread.

use super::calls::push_answer;
use super::scene::of_world;
use cs_journal::{Pass, Run};
use cs_names::{RunName, Text};
use cs_plan::{Built, Scene};
use cs_run::Answer;
use cs_shared_runs::{AnyScene, Look, SharedRegistry, SharedRun};
use std::alloc::Global;
use std::sync::Wait;

/// A registry of the start tree's scene, whose state isn't published.
pub fn unpublished_registry(alloc: Global) -> Option<SharedRegistry<AnyScene>> {
    let (scene, users) = of_world(alloc)?;
    SharedRegistry::<AnyScene>::new(alloc, scene, users).ok()
}

/// A registry of the start tree's scene, whose state is published.
pub fn published_registry<R: Wait>(rt: &R, alloc: Global) -> Option<SharedRegistry<AnyScene>> {
    let registry = unpublished_registry(alloc)?;
    let state = Scene::make(alloc, registry.scene(), 0).ok()?;
    registry.publish(rt, alloc, state).ok()?;
    Some(registry)
}

/// The run `x` of the registry, and a pass of ann's on it.
pub fn attached_run<R: Wait>(
    rt: &R,
    alloc: Global,
    registry: &SharedRegistry<AnyScene>,
) -> Option<(SharedRun<AnyScene>, Pass)> {
    let name = RunName::read(alloc, b"x").ok()?;
    let run = registry.find(rt, alloc, 0, &name).ok()?;
    let user = Text::copy_of(alloc, "ann").ok()?;
    let (pass, _answer) = run.attach(rt, alloc, 7, user).ok()?;
    Some((run, pass))
}

/// Adds an answer and a line end, unless it is out of memory.
fn push_unless_short(text: &mut String, answer: Answer) -> Option<()> {
    match answer {
        Answer::Short => Some(()),
        answer => {
            push_answer(text, answer)?;
            text.push('\n').ok()
        }
    }
}

/// Looks at the answers in a run's journal.
#[derive(Drop)]
struct Answers {
    alloc: Global,
}

impl Look<Option<String>> for Answers {
    ghost use Rattle.std.specs.Prelude.{⊤};

    ghost may_return = { λ look run found. ⊤ };

    fn look(self, run: &Run<Built>) -> Option<String> {
        let mut text = String::new(self.alloc);
        for place in 0..run.entries() {
            let answer = run.answer_at(self.alloc, place).ok()?;
            push_unless_short(&mut text, answer?)?;
        }
        Some(text)
    }
}

/// Adds the answers in the run's journal, except out of memory: a call that runs out of memory may
/// have an entry.
pub fn push_answers<R: Wait>(
    rt: &R,
    alloc: Global,
    run: &SharedRun<AnyScene>,
    text: &mut String,
) -> Option<()> {
    let answers: Option<Option<String>> = run.inspect(rt, Answers { alloc });
    let answers = answers??;
    text.push_str(answers.as_str()).ok()
}

//! A list of steps, taken one after the other.
ghost use Rattle.std.specs.Prelude.{◌≡◌, IfErr, IfOk, List};
ghost use Rattle.cs_plan.specs.Scenes.{Scene};
ghost use Rattle.cs_users.specs.Rows.{Row};
ghost use Rattle.cs_world.specs.Isolation.{IsIsolated};
ghost use Rattle.cs_world.specs.Lists.{IsStepList};
ghost use Rattle.cs_world.specs.Consistent.{IsConsistent};
ghost use Rattle.cs_world.specs.Theorem.{AllBegan, ListIsJudged};
ghost use Rattle.cs_world.specs.Worlds.{new_world};

use crate::reply::Reply;
use crate::step::Step;
use crate::world::World;
use cs_names::laws::know;
use std::alloc::{AllocError, Global};

impl World {
    /// Library surface: no command calls it. Takes steps, one after the other, and returns their
    /// replies in the same order. Memory for the replies is taken first: if there is none, no step
    /// is taken, and the steps come back. From a consistent world, each call is judged: out of
    /// memory or of room, denied by the first rule that fails, or granted with its effect. No other
    /// run changes. Each run that is there afterwards began as the state of its number, which a
    /// crash may leave. From a new world, no run reaches another.
    pub fn run(
        &mut self,
        alloc: Global,
        steps: Vec<Step>,
    ) -> Result<Vec<Reply>, (Vec<Step>, AllocError)>
        ensures runs { IfOk result (λ replies.
            IsStepList self.old steps.items replies.items self.new) }
        ensures judged { IsConsistent self.old → IfOk result (λ replies.
            ListIsJudged self.old steps.items replies.items self.new) }
        ensures began { IsConsistent self.old → IfOk result (λ replies. AllBegan self.new) }
        ensures isolated { IfOk result (λ replies. (scene : Scene) (users : List Row) →
            self.old ≡ new_world scene users →
            IsIsolated self.old steps.items replies.items self.new) }
        ensures consistent { IsConsistent self.old → IsConsistent self.new }
        ensures refused { IfErr result (λ back. (back.0 ≡ steps) × (self.new ≡ self.old)) }
    {
        let mut replies = match Vec::with_capacity(alloc, steps.len()) {
            Ok(replies) => replies,
            Err(fault) => return Err((steps, fault)),
        };
        for step in steps {
            replies.push_reserved(self.step(alloc, step));
        }
        // a crash may leave each state of the scene's plan
        know(self.scene());
        Ok(replies)
    }
}

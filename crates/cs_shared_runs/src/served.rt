//! The scene of a server, and its runs.
ghost use Rattle.std.specs.Prelude.{ℕ, List};
ghost use Rattle.cs_plan.specs.Scenes.{Scene};
ghost use Rattle.cs_tree_model.specs.Tree.{Tree};
ghost use Rattle.cs_users.specs.Rows.{Row};

use crate::answering::AnswersCalls;
use crate::locked::NumberedRun;
use cs_journal::Pass;
use cs_names::Text;
use cs_permit::{Call, PassFault};
use cs_registry::RunKey;
use cs_run::Answer;
use std::alloc::Global;
use std::marker::Brand;

/// Names a server by a type, so that the type of what a lock protects says whose scene, trees and
/// users it has.
pub trait ServerBrand: AnswersCalls {
    /// The trees and the lists of users with which runs of the server begin, under a number.
    ghost serves: { ℕ → Tree → List Row → Type 0 };

    /// The lists of users that the server may load.
    ghost loads: { List Row → Type 0 };

    /// Whether a scene is the server's.
    ghost is_scene: { Scene → Type 0 };
}

/// Names a server of any scene. For tests: the commands use `Brand` of std, which has the same
/// relations.
pub struct AnyScene;

impl ServerBrand for AnyScene {
    ghost use Rattle.cs_shared_runs.specs.Serving.{IsStateOfSome};

    ghost serves = { IsStateOfSome };

    ghost loads = { λ users. Unit {0} };

    ghost is_scene = { λ scene. Unit {0} };
}

// a caller that passes `Brand` chooses which scene, trees and users it means
impl ServerBrand for Brand {
    ghost use Rattle.cs_shared_runs.specs.Serving.{IsStateOfSome};

    ghost serves = { IsStateOfSome };

    ghost loads = { λ users. Unit {0} };

    ghost is_scene = { λ scene. Unit {0} };
}

impl AnswersCalls for AnyScene {
    ghost answered = { λ key pass now call answer left. Unit {0} };

    ghost attached = { λ key now call result. Unit {0} };

    /// Does the call by `NumberedRun::call`, for which only the number of the key counts. The impls
    /// for `AnyScene` and for `Brand` have the same body: change both.
    fn answer(
        run: &mut NumberedRun,
        alloc: Global,
        key: &RunKey,
        pass: &mut Pass,
        now: u32,
        call: Call<'_>,
    ) -> Answer {
        run.call(alloc, key.number(), pass, now, call)
    }

    /// Attaches by `NumberedRun::attach`, with the same errors; only the number of the key counts.
    /// The impls for `AnyScene` and for `Brand` have the same body: change both.
    fn attach(
        run: &mut NumberedRun,
        alloc: Global,
        key: &RunKey,
        now: u32,
        user: Text,
    ) -> Result<(Pass, Answer), PassFault> {
        run.attach(alloc, key.number(), now, user)
    }
}

impl AnswersCalls for Brand {
    ghost answered = { λ key pass now call answer left. Unit {0} };

    ghost attached = { λ key now call result. Unit {0} };

    /// Does the call by `NumberedRun::call`, for which only the number of the key counts. The impls
    /// for `AnyScene` and for `Brand` have the same body: change both.
    fn answer(
        run: &mut NumberedRun,
        alloc: Global,
        key: &RunKey,
        pass: &mut Pass,
        now: u32,
        call: Call<'_>,
    ) -> Answer {
        run.call(alloc, key.number(), pass, now, call)
    }

    /// Attaches by `NumberedRun::attach`, with the same errors; only the number of the key counts.
    /// The impls for `AnyScene` and for `Brand` have the same body: change both.
    fn attach(
        run: &mut NumberedRun,
        alloc: Global,
        key: &RunKey,
        now: u32,
        user: Text,
    ) -> Result<(Pass, Answer), PassFault> {
        run.attach(alloc, key.number(), now, user)
    }
}
